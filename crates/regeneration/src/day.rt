// The day, call by call.
use crate::names::Job;
use wait_book::{Call, Edit, Ending, TicketId};

/// The mark of the book's tickets.
pub const MARK: u16 = 7;

/// How many calls the day has.
pub const STEPS: usize = 30;

/// A call, what is said after it, and whether the jobs that wait are listed then.
#[derive(Clone, Copy)]
pub struct Step<'d> {
    /// The call.
    pub call: Call<'d>,

    /// What is said after it; where it is empty, nothing.
    pub said: &'d str,

    /// Whether the jobs that wait are listed then.
    pub lists: bool,
}

const FACES: &[u8] = &[Job::LeftFace as u8, Job::RightFace as u8];

const MESHES: &[u8] = &[
    Job::BodyMesh as u8,
    Job::DoorMesh as u8,
    Job::DrawerMesh as u8,
];

const VIEWS: &[u8] = &[
    Job::FrontView as u8,
    Job::SideView as u8,
    Job::TopView as u8,
    Job::SectionView as u8,
];

const DRAWER_FACES: &[u8] = &[Job::DrawerFront as u8, Job::DrawerSide as u8];

const HANDLE_SEATS: &[u8] = &[Job::DoorMesh as u8, Job::DrawerFront as u8];

const SIDE_AND_TOP: &[u8] = &[Job::SideView as u8, Job::TopView as u8];

// A detection from the sheet, an opening, and a grant that no job waits for.
const FAULTY_SCRIPT: &[u8] = &[
    b'D',
    Job::Sheet as u8,
    b'O',
    b'G',
    Job::LeftFace as u8,
    Job::Handle as u8,
];

// Detections from the handle and from the fillet.
const ASKING_SCRIPT: &[u8] = &[b'D', Job::Handle as u8, b'D', Job::Fillet as u8];

// A call of which nothing more is said.
fn plain(call: Call<'static>) -> Step<'static> {
    Step {
        call,
        said: "",
        lists: false,
    }
}

fn ask(job: Job, need: u8, targets: &'static [u8]) -> Step<'static> {
    let job = job as usize;
    plain(Call::Edit(Edit::Request { job, need, targets }))
}

fn grant(granter: Job, waiter: Job) -> Step<'static> {
    let granter = granter as usize;
    let waiter = waiter as usize;
    plain(Call::Edit(Edit::Grant { granter, waiter }))
}

fn end(ending: Ending, depth: u8) -> Step<'static> {
    let id = TicketId { mark: MARK, depth };
    plain(Call::End { ending, id })
}

fn detect(job: Job) -> Step<'static> {
    plain(Call::Detect { job: job as usize })
}

impl<'d> Step<'d> {
    fn said(self, said: &'d str) -> Step<'d> {
        Step { said, ..self }
    }

    fn listed(self) -> Step<'d> {
        Step {
            lists: true,
            ..self
        }
    }
}

/// A fillet, a preview and a sheet wait for what they are made of, and the fillet can wait no second time; then one fails on a drawer edge, in a group of its own; a
/// handle is kept; three views wait in a circle, in a group that is cancelled, since the sheet is stuck in it; faces, meshes and
/// views are done; and two scripts are run.
pub fn day() -> [Step<'static>; STEPS] {
    [
        plain(Call::Open).said("it is the designer's own"),
        ask(Job::Fillet, 2, FACES),
        ask(Job::Preview, 1, MESHES),
        ask(Job::Sheet, 2, VIEWS),
        ask(Job::Fillet, 2, FACES).said("the fillet waits already"),
        plain(Call::Open)
            .said("it is for the drawer edge; waiting before it:")
            .listed(),
        ask(Job::DrawerFillet, 2, DRAWER_FACES),
        ask(Job::SectionView, 1, &[Job::DrawerFillet as u8]).said(
            "the drawer edge is too thin: its fillet fails",
        ),
        end(Ending::Cancel, 1).said("the designer's own ticket does not end the inner group"),
        end(Ending::Cancel, 2).said("waiting after it:").listed(),
        plain(Call::Open).said("it is for the handle"),
        ask(Job::Handle, 1, HANDLE_SEATS),
        end(Ending::Keep, 2),
        plain(Call::Open).said("it is for three views"),
        ask(Job::SideView, 1, &[Job::TopView as u8]),
        ask(Job::TopView, 1, &[Job::SectionView as u8]),
        ask(Job::SectionView, 2, SIDE_AND_TOP)
            .said("what waits inside the group:")
            .listed(),
        detect(Job::Sheet),
        detect(Job::Preview),
        end(Ending::Cancel, 2).said("the sheet would never be done in it"),
        detect(Job::Sheet),
        detect(Job::Preview),
        grant(Job::LeftFace, Job::Fillet),
        grant(Job::RightFace, Job::Fillet),
        grant(Job::BodyMesh, Job::Preview),
        grant(Job::SectionView, Job::Sheet),
        grant(Job::FrontView, Job::Sheet),
        end(Ending::Keep, 1).said("left waiting:").listed(),
        plain(Call::Run {
            script: FAULTY_SCRIPT,
        })
        .said("left waiting:")
        .listed(),
        plain(Call::Run {
            script: ASKING_SCRIPT,
        }),
    ]
}
