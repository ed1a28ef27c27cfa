ghost use Rattle.std.specs.Prelude.{◌≡◌, true};
ghost use Rattle.text_hooks.specs.Stands.{after_last, before_receiving, before_sending};

/// Where a run stands in its mechanism.
#[derive(Clone, Copy, Debug, PartialEq, Eq)]
pub struct Phase {
    /// The number of its next pass, from 0.
    pub next: u8,
    /// Its role sends that.
    pub sends: bool,
    /// Its role receives that.
    pub receives: bool,
    /// There is no further pass.
    pub done: bool,
    /// Its role issues a stamp for the next message that it sends.
    pub stamps: bool,
}

impl Phase {
    /// Before a pass that it sends. Takes no memory.
    pub fn sends(next: u8) -> Phase
        ensures phase { result ≡ before_sending next }
    {
        Phase {
            next,
            sends: true,
            receives: false,
            done: false,
            stamps: false,
        }
    }

    /// Before a pass that it receives. Takes no memory.
    pub fn receives(next: u8) -> Phase
        ensures phase { result ≡ before_receiving next }
    {
        Phase {
            next,
            sends: false,
            receives: true,
            done: false,
            stamps: false,
        }
    }

    /// After the last pass. Takes no memory.
    pub fn done(next: u8) -> Phase
        ensures phase { result ≡ after_last next }
    {
        Phase {
            next,
            sends: false,
            receives: false,
            done: true,
            stamps: false,
        }
    }

    /// The same, where the next message that its role sends has a stamp to issue. Takes no memory.
    pub fn with_stamp(self) -> Phase
        ensures phase { result ≡ record self { stamps = true } }
    {
        Phase {
            stamps: true,
            ..self
        }
    }
}
