// The jobs of the day, by the names that a designer knows.

/// How many jobs there are.
pub const JOBS: usize = 16;

/// A job's number in the book is its place here.
#[derive(Clone, Copy)]
pub enum Job {
    LeftFace,
    RightFace,
    Fillet,
    BodyMesh,
    DoorMesh,
    DrawerMesh,
    Preview,
    FrontView,
    SideView,
    TopView,
    SectionView,
    Sheet,
    DrawerFront,
    DrawerSide,
    DrawerFillet,
    Handle,
}

impl Job {
    /// All of them, by number. Written out, since a macro of the repository may write impls alone.
    pub const ALL: [Job; JOBS] = [
        Job::LeftFace,
        Job::RightFace,
        Job::Fillet,
        Job::BodyMesh,
        Job::DoorMesh,
        Job::DrawerMesh,
        Job::Preview,
        Job::FrontView,
        Job::SideView,
        Job::TopView,
        Job::SectionView,
        Job::Sheet,
        Job::DrawerFront,
        Job::DrawerSide,
        Job::DrawerFillet,
        Job::Handle,
    ];

    /// The name of the job.
    pub fn name(self) -> &'static str {
        match self {
            Job::LeftFace => "left face",
            Job::RightFace => "right face",
            Job::Fillet => "fillet",
            Job::BodyMesh => "body mesh",
            Job::DoorMesh => "door mesh",
            Job::DrawerMesh => "drawer mesh",
            Job::Preview => "preview",
            Job::FrontView => "front view",
            Job::SideView => "side view",
            Job::TopView => "top view",
            Job::SectionView => "section view",
            Job::Sheet => "sheet",
            Job::DrawerFront => "drawer front",
            Job::DrawerSide => "drawer side",
            Job::DrawerFillet => "drawer fillet",
            Job::Handle => "handle",
        }
    }
}

/// The name of the job with a number.
pub fn name_of(number: usize) -> &'static str {
    match Job::ALL.get(number) {
        Some(job) => job.name(),
        None => "unknown job",
    }
}
