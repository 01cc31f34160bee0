// How deep groups nest.
ghost use Rattle.std.specs.Prelude.{◌≡◌, length};
ghost use Rattle.book.specs.CallSteps.{SameGroups};

use crate::common::*;
use book::Book;

// Opens groups, each in the one before, until one is refused, at most `most`; then ends them, by turns kept and cancelled.
// How many were opened, and the number of the refusal.
fn filled(book: &mut Book, most: u8) -> (u8, u8)
    ensures groups { SameGroups book.old book.new }
{
    if most == 0 {
        return (0, 0);
    }
    match book.open() {
        Err(fault) => (0, fault.number()),
        Ok(ticket) => {
            let (opened, number) = filled(book, most - 1);
            end(book, ticket, most % 2 == 0);
            (opened.saturating_add(1), number)
        }
    }
}

#[test]
fn ninth_group_is_too_deep(rt: HostRuntime) {
    let mut memory = trail::<1>();
    let mut book = Book::new(1, MARK, &mut memory);
    for (most, number) in [(9, 8), (8, 0), (20, 8)] {
        let (opened, refusal) = filled(&mut book, most);
        assert_eq!(rt; opened, 8);
        assert_eq!(rt; refusal, number);
        assert_eq!(rt; book.depth(), 0);
    }
}
