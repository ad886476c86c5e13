// The two sinks: one counts up to a limit, the other writes.
ghost use Rattle.std.specs.Prelude.{◌+◌, ◌-◌, length, refl};
ghost use Rattle.answers.specs.Sinks.{Counted, Wrote};
ghost use Rattle.std.proofs.Common.{rules, sym, arith};
ghost use Rattle.text.proofs.Wrote.{wrote_none};

use crate::sink::Sink;
use arrayvec::CapacityError;

// Counts bytes up to the limit, and leaves the buffer alone.
#[derive(Clone, Copy)]
pub struct Count {
    pub len: usize,
    pub limit: usize,
}

impl Sink for Count {
    ghost room = { λ s o. s.limit - s.len };

    ghost holds = { λ s o t q bs. Counted s o t q bs };

    ghost none = { Prim.search rules };

    ghost less = { Prim.search rules };

    fn put(&mut self, _out: &mut [u8], _b: u8) -> Result<(), CapacityError> {
        if self.len >= self.limit {
            return Err(CapacityError::new(()));
        }
        self.len += 1;
        Ok(())
    }
}

// Writes bytes into the buffer from `len` on. The buffer is lent to each call, so that a sink is `Copy`, and may have any length, where a vector of fixed capacity wants a constant.
// No Stack: its promise is of the buffer after it, not of the entries.
#[derive(Clone, Copy)]
pub struct Write {
    pub len: usize,
}

impl Sink for Write {
    ghost room = { λ s o. length o - s.len };

    ghost holds = { λ s o t q bs. Wrote s o t q bs };

    ghost none = { λ s o. record { size = refl; len = omega arith; fits = omega arith; after = sym (wrote_none o s.len) } };

    ghost less = { Prim.search rules };

    fn put(&mut self, out: &mut [u8], b: u8) -> Result<(), CapacityError> {
        let len = self.len;
        if len >= out.len() {
            return Err(CapacityError::new(()));
        }
        out[len] = b;
        self.len = len + 1;
        Ok(())
    }
}
