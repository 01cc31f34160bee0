// A fillet that may fail while its group is open.
ghost use Rattle.std.specs.Prelude.{◌≡◌, is_ok, if◌then◌else◌};
ghost use Rattle.wait_book.specs.Rules.{changed};
ghost use Rattle.fillets.specs.Fillets.{waits_for_faces, fillet_reply, fillet_comes};
ghost use Rattle.wait_book.specs.Plain.{plain};

use crate::fillet::{FACES, FilletFault};
use wait_book::Book;

/// Lets a fillet wait for the faces at its edge, in a group of its own. On a thin edge it fails, and the group is
/// cancelled: whenever it is not made, the book is as it was. Thin or not is how the edge is, and nothing for a caller to choose.
///
/// Refused with the book's first refusal, of the opening or of the request, or with `TooThin`.
pub fn round_edge(
    book: &mut Book,
    fillet: usize,
    faces: &[u8],
    thin: bool,
) -> Result<(), FilletFault>
    ensures value { fillet_reply result ≡ fillet_comes book.old thin (waits_for_faces fillet faces.now) }
    ensures after { book.new ≡ (if is_ok result then changed plain book.old (waits_for_faces fillet faces.now) else book.old) }
{
    let ticket = book.open()?;
    let asked = book.request(fillet, FACES, faces);
    if thin {
        book.cancel(ticket).unwrap();
        return Err(FilletFault::TooThin);
    }
    book.keep(ticket).unwrap();
    asked?;
    Ok(())
}
