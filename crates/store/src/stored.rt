// What a stored row tells; where there is none, what an idle one does.
ghost use Rattle.std.specs.Prelude.{◌≡◌};
ghost use Rattle.rows.specs.StoredRows.{waiting_or_idle};

use rows::PlainRow;

/// How many targets are needed.
pub fn need_of(stored: Option<&PlainRow>) -> u8
    ensures { result ≡ (waiting_or_idle stored.entry).need }
{
    stored.map_or(0, |plain| plain.need)
}

/// The targets.
pub fn targets_of(stored: Option<&PlainRow>) -> &[u8]
    ensures { result.now ≡ (waiting_or_idle stored.entry).targets }
{
    match stored {
        Some(plain) => plain.in_use(),
        None => &[],
    }
}
