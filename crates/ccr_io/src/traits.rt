//! What a source and a sink of bytes promise.
ghost use Rattle.std.specs.Prelude.{◌≡◌, ◌+◌, ◌-◌, ◌^◌, ◌<◌, ◌≤◌, ℕ, List, Option, length, take, is_some, IfOk, OnOk, OnErr};
ghost use Rattle.std.specs.Io.{ReadsAtMost};
ghost use Rattle.std.specs.Io.KnownBytes.{Appends, Consumes, IsAtEnd};
ghost use Rattle.ccr_io.specs.Prefix.{AppendsPrefix};

use crate::error::Failed;

/// Where bytes come from, piece by piece.
pub trait Source {
    /// The bytes that reads will give from here on, in order; `None` where the source does not tell.
    ghost left: { Self → Option (List ℕ) };

    /// How many reads have failed: each that fails raises it by one, and nothing else changes it.
    ghost faults: { Self → ℕ };

    /// Reads at most as many bytes as `into` has, to its front, and says how many. 0 is the end. Past
    /// that count, and after a failure, what `into` holds is left open.
    fn read(&mut self, into: &mut [u8]) -> Result<usize, Failed>
        requires some_room { 0 < length into.old }
        requires countable { faults self.old < 2 ^ 64 - 1 }
        ensures count { ReadsAtMost result into.new }
        ensures bytes { IfOk result (λ n. Consumes (left self.old) (left self.new) (take n into.new)) }
        ensures end { IfOk result (λ n. n ≡ 0 → IsAtEnd (left self.new)) }
        ensures kept { OnErr result (left self.new ≡ left self.old) }
        ensures told { is_some (left self.new) ≡ is_some (left self.old) }
        ensures quiet { OnOk result (faults self.new ≡ faults self.old) }
        ensures rose { OnErr result (faults self.new ≡ faults self.old + 1) };
}

/// Where bytes go, piece by piece.
pub trait Sink {
    /// The bytes that writes have put there, in order; `None` where the sink does not tell.
    ghost taken: { Self → Option (List ℕ) };

    /// How many writes have failed: each that fails raises it by one, and nothing else changes it.
    ghost faults: { Self → ℕ };

    /// Takes at least one byte from the front of `from`, and says how many.
    fn write(&mut self, from: &[u8]) -> Result<usize, Failed>
        requires some_bytes { 0 < length from.now }
        requires countable { faults self.old < 2 ^ 64 - 1 }
        ensures some { IfOk result (λ n. 0 < n) }
        ensures count { IfOk result (λ n. n ≤ length from.now) }
        ensures bytes { IfOk result (λ n. Appends (taken self.old) (taken self.new) (take n from.now)) }
        ensures kept { OnErr result (taken self.new ≡ taken self.old) }
        ensures told { is_some (taken self.new) ≡ is_some (taken self.old) }
        ensures quiet { OnOk result (faults self.new ≡ faults self.old) }
        ensures rose { OnErr result (faults self.new ≡ faults self.old + 1) };
}

/// Writes all the bytes, in as many writes as that takes; none where there are none. A failure leaves
/// a front part of the bytes written, and never all of them.
pub fn write_all<K: Sink>(to: &mut K, bytes: &[u8]) -> Result<(), Failed>
    requires { K.faults to.old < 2 ^ 64 - 1 }
    ensures whole { OnOk result (Appends (K.taken to.old) (K.taken to.new) bytes.now) }
    ensures part { OnErr result (AppendsPrefix (K.taken to.old) (K.taken to.new) bytes.now) }
    ensures told { is_some (K.taken to.new) ≡ is_some (K.taken to.old) }
    ensures quiet { OnOk result (K.faults to.new ≡ K.faults to.old) }
    ensures rose { OnErr result (K.faults to.new ≡ K.faults to.old + 1) }
{
    let mut done = 0;
    while done < bytes.len() {
        done += to.write(&bytes[done..])?;
    }
    Ok(())
}
