// A fillet that is made, and a second one that is only tried.
ghost use Rattle.std.specs.Prelude.{◌≡◌, Some};
ghost use Rattle.fillets.specs.Fillets.{waits_for_faces, fillet_reply, twice_comes, twice_leaves};

use crate::fillet::{FACES, FilletFault};
use wait_book::Book;

/// Keeps a fillet's wait for its faces, and tries a second one in a group of its own, which is cancelled: the book is left
/// with the first alone. Refused with the book's first refusal, of an opening or of a request; where it is one of the first fillet's, the book is
/// as it was.
pub fn round_twice(
    book: &mut Book,
    first: usize,
    second: usize,
    faces: &[u8],
) -> Result<(), FilletFault>
    ensures value { fillet_reply result ≡ Some (twice_comes book.old (waits_for_faces first faces.now) (waits_for_faces second faces.now)) }
    ensures after { book.new ≡ twice_leaves book.old (waits_for_faces first faces.now) }
{
    let ticket = book.open()?;
    let asked = book.request(first, FACES, faces);
    book.keep(ticket).unwrap();
    asked?;
    let ticket = book.open()?;
    let tried = book.request(second, FACES, faces);
    book.cancel(ticket).unwrap();
    tried?;
    Ok(())
}
