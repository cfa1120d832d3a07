// All that the program keeps from one call to the next, and one call of a sequence.
use crate::broken::Reading;
use crate::calls::{self, BLANK, Got};
use crate::dice::Dice;
use crate::expect::{self, Must};
use crate::kinds::{Call, Kind};
use crate::model::{Model, State};
use crate::pool::{CELLS, Pool};
use crate::tally::{About, Tally};
use crate::{asks, damage, undo};
use std::io;

#[derive(Clone, Copy)]
pub(crate) struct Soak {
    pub(crate) dice: Dice,
    pub(crate) model: Model,
    // The pool of before the damage.
    pub(crate) saved: Pool,
    // The pool of before a call by dice, to compare with when that is undone.
    pub(crate) kept: Pool,
    pub(crate) call: Call,
    // The call that undoes the last one, if it is the next.
    pub(crate) undoing: Option<Kind>,
    pub(crate) got: Got,
    // What a call must leave in the buffer.
    pub(crate) buffer: [u64; CELLS],
    pub(crate) reading: Reading,
    pub(crate) tally: Tally,
}

impl Soak {
    pub(crate) const NEW: Soak = Soak {
        dice: Dice {
            seed: 88172645463325252,
        },
        model: Model::NEW,
        saved: Pool::ZERO,
        kept: Pool::ZERO,
        call: Call::NONE,
        undoing: None,
        got: Got::NONE,
        buffer: [0; CELLS],
        reading: Reading::NEW,
        tally: Tally::NEW,
    };

    pub(crate) fn about<'a>(&self, held_to: &'a str) -> About<'a> {
        About {
            calls: self.tally.calls,
            size: self.model.size,
            row: self.call.row(),
            list: self.call.list,
            held_to,
        }
    }

    // What the call left and answered is held to what it must. Answers what it must do.
    fn judge(&mut self, rt: &impl Print) -> io::Result<Must> {
        self.buffer = [BLANK; CELLS];
        let (must, wanted) = expect::expect(
            &mut self.model,
            &mut self.reading,
            &self.call,
            &mut self.buffer,
        );
        let about = self.about("deque");
        self.tally.count(&self.call, self.got.answer.refusal.number);
        self.tally
            .compare_answers(rt, &about, &self.got.answer, &wanted)?;
        self.tally.compare(rt, &about, "link", &self.got.links, &self.model.pool.links)?;
        self.tally.compare(
            rt,
            &about,
            "value",
            &self.got.values,
            &self.model.pool.values,
        )?;
        self.tally
            .compare(rt, &about, "buffer", &self.got.buffer, &self.buffer)?;
        Ok(must)
    }

    // One call: the one that undoes the call before, where that is to be undone, or else one by dice, and now and then damage before it.
    fn turn(&mut self, rt: &impl Print, step: u32) -> io::Result<()> {
        let dice = self.dice.next();
        let undoing = self.undoing;
        self.dice = dice;
        self.tally.calls = self.tally.calls.saturating_add(1);
        match undoing {
            None => {
                damage::perhaps(dice, self);
                self.call = asks::ask(dice, &self.model, step);
                self.kept = self.model.pool;
            }
            Some(kind) => undo::ask(dice, self, kind),
        }
        self.got = calls::make(&self.call, &self.model.pool);
        let must = self.judge(rt)?;
        match undoing {
            None => {
                undo::next(dice, self, must);
                Ok(())
            }
            Some(kind) => undo::after(rt, self, kind),
        }
    }

    // A pool of a size, from its first setup on. After a difference nothing more is done.
    pub(crate) fn pool(&mut self, rt: &impl Print, size: u16, calls: u32) -> io::Result<()> {
        self.model.size = size;
        self.model.state = State::NotSetUp;
        self.undoing = None;
        for step in 0..calls {
            if self.tally.differences != 0 {
                return Ok(());
            }
            self.turn(rt, step)?;
        }
        Ok(())
    }
}
