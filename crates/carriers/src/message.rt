// Messages: what the jobs of a table tell each other on their waits.
ghost use Rattle.std.specs.Prelude.{◌≡◌};
ghost use Rattle.carriers.specs.Messages.{receiver};
ghost use Rattle.carriers.specs.declared.message.Kind.TheVariants.{Notify};

/// The four things that a message can say.
#[derive(Clone, Copy, Drop, PartialEq, Eq, Debug)]
pub enum Kind {
    /// The target learns of the run.
    Notify,

    /// The answer to a NOTIFY: at once where the target knew of the run, else when it closes its notice.
    Done,

    /// The waiter learns that the target is free.
    Grant,

    /// The target learns that what its GRANT has led to is over.
    Ack,
}

/// The wait (v, u): the job v, the waiter, waits for the job u, its target.
#[derive(Clone, Copy, Drop, PartialEq, Eq, Debug)]
pub struct Wait {
    /// The job that waits.
    pub waiter: u8,

    /// The job that it waits for.
    pub target: u8,
}

/// A message says one thing about one wait. The wait comes first, so that its two bytes lie where they are read at once.
#[derive(Clone, Copy, Drop, PartialEq, Eq, Debug)]
pub struct Message {
    /// The wait.
    pub wait: Wait,

    /// What is said.
    pub kind: Kind,
}

/// A NOTIFY on a wait of job 0 for itself, which no run puts: to fill the cells of a carrier, where what is in them does not matter.
impl Default for Message {
    ghost is_default = { λ message. (message.kind ≡ Notify) × (message.wait.waiter ≡ 0) × (message.wait.target ≡ 0) };

    fn default() -> Message {
        Message {
            wait: Wait {
                waiter: 0,
                target: 0,
            },
            kind: Kind::Notify,
        }
    }
}

impl Message {
    /// The job that receives the message: the target of its wait receives a NOTIFY or an ACK, the waiter a DONE or a GRANT.
    pub fn receiver(&self) -> u8
        ensures { result ≡ receiver self.now }
    {
        match self.kind {
            Kind::Notify | Kind::Ack => self.wait.target,
            Kind::Done | Kind::Grant => self.wait.waiter,
        }
    }
}
