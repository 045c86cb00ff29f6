use outside_core::{Sink, WriteFault, write_whole};
use std::alloc::Global;
use std::marker::Model;
use value_core::Memory;

/// As soon as so many bytes are held they are handed on.
const FULL: usize = 65_536;

/// The output that was not handed on yet. Contracts see its bytes.
#[derive(Drop)]
pub struct Output {
    held: Vec<u8>,
}

impl Model for Output {
    ghost use Rattle.std.specs.Prelude.{ℕ, List};

    ghost Value = { List ℕ };

    ghost view = { λ output. output.held.items };
}

impl Output {
    ghost use Rattle.std.specs.Prelude.{◌≡◌, ◌<◌, [], ◌++◌, ◌||◌, length, IsTrue, OnOk, OnErr};
    ghost use Rattle.outside_core.specs.Bytes.{TakesFront};
    ghost use Rattle.outside_core.specs.Counts.{count_after};
    ghost use Rattle.c_runner_deeds.specs.Handing.{HandsOn, has_bytes};

    /// Nothing is held. It takes no memory.
    pub fn new(alloc: Global) -> Output
        ensures { result ≡ [] }
    {
        Output {
            held: Vec::new(alloc),
        }
    }

    /// Holds a text too.
    pub fn add(&mut self, text: &str) -> Result<(), Memory>
        ensures { OnOk result (self.new ≡ self.old ++ text.now) }
    {
        self.held.extend_from_slice(text.as_bytes())?;
        Ok(())
    }

    /// Whether there were bytes earlier, or there are some now.
    pub fn has_any(&self, earlier: bool) -> bool
        ensures { result ≡ (earlier || has_bytes self.now) }
    {
        earlier || !self.held.is_empty()
    }

    /// Hands all on. It stops at the first refusal, and does nothing to the sink where nothing is held.
    pub fn hand_on<O: Sink>(&mut self, out: &mut O) -> Result<(), WriteFault>
        ensures counted { O.faults out.new ≡ count_after result (O.faults out.old) }
        ensures taken { OnOk result (IsTrue O.tells →
            O.taken out.new ≡ O.taken out.old ++ self.old) }
        ensures front { OnErr result (IsTrue O.tells →
            TakesFront (O.taken out.old) (O.taken out.new) self.old) }
        ensures emptied { OnOk result (self.new ≡ []) }
        ensures alone { self.old ≡ [] → out.new ≡ out.old }
    {
        if self.held.is_empty() {
            return Ok(());
        }
        write_whole(out, self.held.as_slice())?;
        self.held.clear();
        Ok(())
    }

    /// Hands all on where there is enough of it. It stops at the first refusal.
    pub fn hand_on_if_full<O: Sink>(&mut self, out: &mut O) -> Result<(), WriteFault>
        ensures counted { O.faults out.new ≡ count_after result (O.faults out.old) }
        ensures taken { OnOk result
            (HandsOn O.tells (O.taken out.old) (O.taken out.new) self.old self.new (out.new ≡ out.old)) }
        ensures short { OnOk result (length self.new < FULL) }
        ensures front { OnErr result (IsTrue O.tells →
            TakesFront (O.taken out.old) (O.taken out.new) self.old) }
        ensures alone { self.old ≡ [] → out.new ≡ out.old }
    {
        if self.held.len() >= FULL {
            self.hand_on(out)?;
        }
        Ok(())
    }

    /// Hands all on where it is wanted. It stops at the first refusal.
    pub fn hand_on_if<O: Sink>(&mut self, wanted: bool, out: &mut O) -> Result<(), WriteFault>
        ensures counted { O.faults out.new ≡ count_after result (O.faults out.old) }
        ensures taken { OnOk result
            (HandsOn O.tells (O.taken out.old) (O.taken out.new) self.old self.new (out.new ≡ out.old)) }
        ensures emptied { OnOk result (IsTrue wanted → self.new ≡ []) }
        ensures front { OnErr result (IsTrue O.tells →
            TakesFront (O.taken out.old) (O.taken out.new) self.old) }
        ensures alone { self.old ≡ [] → out.new ≡ out.old }
    {
        if wanted {
            self.hand_on(out)?;
        }
        Ok(())
    }
}
