//! Random commands of clients.

ghost use Rattle.std.specs.Prelude.{◌≡◌, ◌+◌, ◌∷◌, [], ◌<◌, IfOk, IfSome, OnOk};
ghost use Rattle.crsm_base.specs.Spelling.{FitsCommand};
ghost use Rattle.crsm_sim_generator.specs.Drawing as on_paper;
ghost use Rattle.crsm_text.specs.Values.{HasBytes};
ghost use Rattle.crsm_sim_generator.specs.Bytes.{IsOneByte, HasOneByte};
ghost use Rattle.crsm_sim_generator.specs.Drawing.{behind, drawn_cas, drawn_command, drawn_expected, drawn_op};
ghost use Rattle.crsm_sim_generator.specs.Sequence.{draw, later};

use crate::drawing::Drawing;
use crsm_base::{Command, Key, NoMemory, Op, Val};
use std::alloc::Global;

/// The keys are the bytes from this one, `a`, to `h`.
const FIRST_KEY: u64 = 97;

const KEYS: u64 = 8;

/// Returns the number of a client's next command. One of ten commands repeats the latest, if there is one.
#[tactic(auto, unfolding(crate::specs::Drawing::number_behind, crate::specs::Drawing::capped_sum))]
fn number_behind(number: u64, tenth: u64) -> u64
    ensures { result ≡ on_paper.number_behind number tenth }
{
    if number == 0 || tenth > 0 {
        number.saturating_add(1)
    } else {
        number
    }
}

impl Drawing {
    /// Draws a key of one byte.
    fn key(&mut self, alloc: Global) -> Result<Key, NoMemory>
        ensures key { IfOk result (λ key. key ≡ (97 + draw self.old.latest 0 8) ∷ []) }
        ensures byte { IfOk result (λ key. IsOneByte key) }
        ensures state { self.new ≡ behind 1 self.old }
    {
        let byte = FIRST_KEY + self.draw(KEYS);
        let mut key = Key::new(alloc);
        key.push(byte as u8)?;
        Ok(key)
    }

    /// Draws a value of one byte.
    fn val(&mut self, alloc: Global) -> Result<Val, NoMemory>
        ensures val { IfOk result (λ val. val ≡ draw self.old.latest 0 256 ∷ []) }
        ensures byte { IfOk result (λ val. IsOneByte val) }
        ensures state { self.new ≡ behind 1 self.old }
    {
        let byte = self.draw(256);
        let mut val = Val::new(alloc);
        val.push(byte as u8)?;
        Ok(val)
    }

    /// Draws the expected value of a compare-and-set, or its absence.
    #[tactic(auto, unfolding(crate::specs::Drawing::drawn_expected, crate::specs::Drawing::behind, crate::specs::Sequence::later, crate::specs::Sequence::draw))]
    fn expected(&mut self, alloc: Global) -> Result<Option<Val>, NoMemory>
        ensures drawn { IfOk result (λ val. (val, self.new.latest) ≡ drawn_expected self.old.latest) }
        ensures byte { IfOk result (λ val. IfSome val IsOneByte) }
        ensures state { OnOk result (self.new ≡ record self.old { latest = self.new.latest }) }
    {
        if self.draw(2) == 0 {
            return Ok(None);
        }
        Ok(Some(self.val(alloc)?))
    }

    /// Draws a compare-and-set of a key.
    #[tactic(auto, unfolding(crate::specs::Drawing::drawn_cas, crate::specs::Drawing::behind))]
    fn cas(&mut self, alloc: Global, key: Key) -> Result<Op, NoMemory>
        ensures drawn { IfOk result (λ op. (op, self.new.latest) ≡ drawn_cas key self.old.latest) }
        ensures bytes { IsOneByte key → IfOk result (λ op. HasOneByte op) }
        ensures state { OnOk result (self.new ≡ record self.old { latest = self.new.latest }) }
    {
        let expected = self.expected(alloc)?;
        let new = self.val(alloc)?;
        Ok(Op::Cas(key, expected, Some(new)))
    }

    /// Draws an operation of this kind.
    #[tactic(auto, unfolding(crate::specs::Drawing::op_of_kind, crate::specs::Drawing::behind, crate::specs::Sequence::later, crate::specs::Sequence::draw))]
    fn op_of_kind(&mut self, alloc: Global, kind: u64) -> Result<Op, NoMemory>
        ensures drawn { IfOk result (λ op. (op, self.new.latest) ≡ on_paper.op_of_kind kind self.old.latest) }
        ensures bytes { IfOk result HasOneByte }
        ensures state { OnOk result (self.new ≡ record self.old { latest = self.new.latest }) }
    {
        let key = self.key(alloc)?;
        match kind {
            0 => Ok(Op::Get(key)),
            1 => Ok(Op::Put(key, self.val(alloc)?)),
            2 => Ok(Op::Delete(key)),
            _ => Ok(self.cas(alloc, key)?),
        }
    }

    /// Draws an operation.
    #[tactic(auto, unfolding(crate::specs::Drawing::drawn_op, crate::specs::Drawing::behind))]
    fn op(&mut self, alloc: Global) -> Result<Op, NoMemory>
        ensures drawn { IfOk result (λ op. (op, self.new.latest) ≡ drawn_op self.old.latest) }
        ensures bytes { IfOk result HasOneByte }
        ensures state { OnOk result (self.new ≡ record self.old { latest = self.new.latest }) }
    {
        let kind = self.draw(4);
        Ok(self.op_of_kind(alloc, kind)?)
    }

    /// Draws a command of one of the clients.
    #[tactic(auto, unfolding(crate::specs::Drawing::drawn_command, crate::specs::Drawing::behind, crate::specs::Sequence::later, crate::specs::Sequence::draw))]
    pub(crate) fn command(&mut self, alloc: Global) -> Result<Command, NoMemory>
        ensures drawn { IfOk result (λ command. (command, self.new) ≡ drawn_command self.old) }
        ensures fits { IfOk result (λ command. FitsCommand command × HasBytes command.op) }
    {
        let client = self.draw(4);
        let tenth = self.draw(10);
        let number = number_behind(self.numbers[client as usize], tenth);
        self.numbers[client as usize] = number;
        let op = self.op(alloc)?;
        Ok(Command {
            client: 1 + client,
            number,
            op,
        })
    }
}
