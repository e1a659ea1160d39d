// The session: edits of one envelope, with steps back and forward over a lent step memory. docs/STATE.md says where it keeps what.
#![tactic(auto)]

ghost use Rattle.std.specs.Prelude.{◌≡◌, if◌then◌else◌, cond, is_ok, true, ◌+◌, ◌*◌, ◌^◌, ◌<◌, ◌≤◌, length, Ok, Err};
ghost use Rattle.points.specs.Refusal.{said, gives};
ghost use Rattle.points.specs.declared.refusal.Refusal.TheVariants.{NotValid};
ghost use Rattle.points.specs.Checks.{refusal_of, first_failing};
ghost use Rattle.state.specs.State.{pack, read_state};
ghost use Rattle.session.specs.Session.{depth, state_at, stored, slot_after, slot_before, open_session, in_order, valid_session, called, settled};
ghost use Rattle.session.specs.Calls.{Obeys, alone, joined, edit, back, forward, admission, admission_of, in_turn, step_tests};

pub mod play;

use envelope::AutomationEnvelope;
use envelope::edit::{Edit, Join};
use points::refusal::Refusal;
use state::STATE_WORDS;

#[derive(Clone, Copy)]
pub struct Session {
    pub envelope: AutomationEnvelope,
    // words lent at opening
    pub length: usize,
    // the slot of the next edit
    pub at: usize,
    pub kept: usize,
    pub ahead: usize,
}

// ---- the slots of the step memory

#[tactic(auto, using(crate::proofs::Ways::slot_stored))]
fn store(slot: usize, envelope: &AutomationEnvelope, memory: &mut [u64])
    requires { slot * 1028 + 1028 ≤ length memory.old }
    ensures { memory.new ≡ stored slot (pack envelope.now) memory.old }
{
    let from = slot * STATE_WORDS;
    state::write::fit_state(envelope, &mut memory[from..from + STATE_WORDS]);
}

#[tactic(auto, using(crate::proofs::Ways::slot_part))]
fn load(slot: usize, memory: &[u64]) -> Result<AutomationEnvelope, Refusal>
    requires { slot * 1028 + 1028 ≤ length memory.now }
    ensures { said result ≡ read_state (state_at memory.now slot) }
{
    let from = slot * STATE_WORDS;
    state::read::read_state(&memory[from..from + STATE_WORDS])
}

// The state in a slot, where the envelope goes in its place.
fn exchange(
    slot: usize,
    envelope: &AutomationEnvelope,
    memory: &mut [u64],
) -> Result<AutomationEnvelope, Refusal>
    requires { slot * 1028 + 1028 ≤ length memory.old }
    ensures answer { said result ≡ read_state (state_at memory.old slot) }
    ensures memory_after { memory.new ≡ (if is_ok result then stored slot (pack envelope.now) memory.old else memory.old) }
{
    let other = load(slot, memory)?;
    store(slot, envelope, memory);
    Ok(other)
}

impl Session {
    // A new session: no edit yet. The memory stays as it is.
    #[tactic(auto, unfolding(crate::specs::Session::open_session))]
    pub fn open(target: u32, memory: &[u64]) -> Session
        ensures { result ≡ open_session target memory.now }
    {
        Session {
            envelope: AutomationEnvelope::new(target),
            length: memory.len(),
            at: 0,
            kept: 0,
            ahead: 0,
        }
    }

    // How many states the memory has room for.
    fn depth(&self) -> usize
        ensures value { result ≡ depth self.now }
        ensures small { result < 2 ^ 54 }
    {
        self.length / STATE_WORDS
    }

    // The slot after this one. No `%`, which would divide by 0 where there is none.
    #[tactic(auto, using(crate::proofs::Ways::order_at), unfolding(crate::specs::Session::slot_after))]
    fn slot_after(&self) -> usize
        requires { in_order self.now ≡ true }
        ensures { result ≡ slot_after (depth self.now) self.now.at }
    {
        let depth = self.depth();
        let next = self.at + 1;
        if next < depth { next } else { 0 }
    }

    #[tactic(auto, unfolding(crate::specs::Session::slot_before))]
    fn slot_before(&self) -> usize
        requires { 0 < depth self.now }
        ensures { result ≡ slot_before (depth self.now) self.now.at }
    {
        self.at.checked_sub(1).unwrap_or(self.depth() - 1)
    }

    // All of its validity but its envelope's.
    #[tactic(auto, using(crate::proofs::Ways::order_is), unfolding(crate::specs::Session::in_order))]
    fn in_order(&self) -> bool
        ensures { result ≡ in_order self.now }
    {
        let depth = self.depth();
        (self.kept.saturating_add(self.ahead) <= depth) & (self.at < depth.max(1))
    }

    // 1 where it is out of order.
    pub(crate) fn check_order(&self) -> Result<(), Refusal>
        ensures { result ≡ (if in_order self.now then Ok tt else Err NotValid) }
    {
        if !self.in_order() {
            return Err(Refusal::NotValid);
        }
        Ok(())
    }

    pub fn is_valid(&self) -> bool
        ensures { result ≡ valid_session self.now }
    {
        self.envelope.is_valid() & self.in_order()
    }

    // What is asked of the lent memory, by every call.
    #[tactic(auto, unfolding(points::specs::Checks::first_failing))]
    pub fn admit(&self, memory: &[u64]) -> Result<(), Refusal>
        ensures { refusal_of result ≡ first_failing (admission (admission_of self.now memory.now)) }
    {
        if memory.len() == self.length {
            Ok(())
        } else {
            Err(Refusal::MemoryLength)
        }
    }

    // A refusal that comes after 1; `valid` says whether the call's envelopes are valid, so that they give no 1. The session stays as it is.
    pub fn refuse_after(&self, valid: bool, refusal: Refusal) -> Result<(), Refusal>
        ensures { result ≡ Err (cond valid refusal NotValid) }
    {
        Err(if valid { refusal } else { Refusal::NotValid })
    }

    // ---- edits

    // What an accepted edit makes of the session: it counts if it altered a bit, and the envelope before it goes into its slot, if there is one.
    #[tactic(auto, using(crate::proofs::Ways::order_room, crate::proofs::Ways::order_below, state::proofs::StateLaws::slot_fits))]
    fn settle(&mut self, made: &AutomationEnvelope, memory: &mut [u64])
        requires sound { in_order self.old ≡ true }
        requires memory_fits { length memory.old ≡ self.old.length }
        ensures { called (Ok tt) self.new memory.new ≡ settled self.old memory.old (gives tt) made.now }
    {
        if equal::bit_equal(&self.envelope, made) {
            return;
        }
        let depth = self.depth();
        if 0 < depth {
            store(self.at, &self.envelope, memory);
        }
        self.at = self.slot_after();
        self.kept = (self.kept + 1).min(depth);
        self.ahead = 0;
        self.envelope = *made;
    }

    // Any of 01's edits. Its own test gives the 1 for the envelope.
    #[tactic(auto, using(crate::proofs::Ways::editing))]
    pub fn edit(&mut self, e: Edit, memory: &mut [u64]) -> Result<(), Refusal>
        ensures { Obeys self.old memory.old (edit (alone e)) result self.new memory.new }
    {
        self.check_order()?;
        if let Err(refusal) = self.admit(memory) {
            let valid = self.envelope.is_valid();
            return self.refuse_after(valid, refusal);
        }
        let made = self.envelope.edit(e)?;
        self.settle(&made, memory);
        Ok(())
    }

    // Any of 01's edits that take a second envelope: 1 for either comes first.
    // `edit` and this are two: over a closure the contract would speak of all that one computes.
    #[tactic(auto, using(crate::proofs::Ways::editing))]
    pub fn join(
        &mut self,
        join: Join,
        other: &AutomationEnvelope,
        memory: &mut [u64],
    ) -> Result<(), Refusal>
        ensures { Obeys self.old memory.old (edit (joined join other.now)) result self.new memory.new }
    {
        self.check_order()?;
        if let Err(refusal) = self.admit(memory) {
            let valid = self.envelope.is_valid() & other.is_valid();
            return self.refuse_after(valid, refusal);
        }
        let made = self.envelope.join(join, other)?;
        self.settle(&made, memory);
        Ok(())
    }

    // ---- steps

    // What a step is refused for before its own work: 1, 11, and 10 where no step stands that way.
    #[tactic(auto, unfolding(points::specs::Checks::first_failing))]
    fn check_step(&self, steps: usize, memory: &[u64]) -> Result<(), Refusal>
        ensures { refusal_of result ≡ first_failing (in_turn (step_tests self.now memory.now steps)) }
    {
        if !self.is_valid() {
            return Err(Refusal::NotValid);
        }
        self.admit(memory)?;
        if steps == 0 {
            return Err(Refusal::NoStep);
        }
        Ok(())
    }

    // Two steps: what they leave differs in each of the numbers.
    #[tactic(auto, using(crate::proofs::Ways::stepping_back))]
    pub fn back(&mut self, memory: &mut [u64]) -> Result<(), Refusal>
        ensures { Obeys self.old memory.old back result self.new memory.new }
    {
        self.check_step(self.kept, memory)?;
        let slot = self.slot_before();
        self.envelope = exchange(slot, &self.envelope, memory)?;
        self.at = slot;
        self.kept -= 1;
        self.ahead += 1;
        Ok(())
    }

    #[tactic(auto, using(crate::proofs::Ways::stepping_forward))]
    pub fn forward(&mut self, memory: &mut [u64]) -> Result<(), Refusal>
        ensures { Obeys self.old memory.old forward result self.new memory.new }
    {
        self.check_step(self.ahead, memory)?;
        let next = self.slot_after();
        self.envelope = exchange(self.at, &self.envelope, memory)?;
        self.at = next;
        self.kept += 1;
        self.ahead -= 1;
        Ok(())
    }
}
