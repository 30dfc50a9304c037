//! A forest of classes as a theory of whole numbers.

ghost use Rattle.theory.specs.Wholes.{whole, means_of};
ghost use Rattle.std.proofs.Common.{rules};

use crate::claim::{Claim, entails, restrict};
use crate::interface::{RangedTheory, Theory};
use crate::interpreted::Interpreted;
use crate::known::is_known_all;
use crate::told::Told;
use classes::forest::methods::CAPACITY;
use classes::forest::{Forest, NotMade};
use contents::content::Content;
use terms::{Operand, Primitive};

impl<C: Interpreted> Theory for Forest<C> {
    ghost domain = { whole C.Interpreted.truth };

    ghost means = { λ f. means_of C.Interpreted.truth C.Content.holds f };

    ghost capacity = { 256 };

    ghost lawful = { Prim.search rules };

    fn capacity() -> usize {
        CAPACITY
    }

    fn clear(&mut self) {
        self.clear();
    }

    fn make(&mut self) -> Option<u8> {
        self.make()
    }

    fn tell(&mut self, p: Primitive<Operand>) -> Told {
        if !is_known_all(p, self.count()) {
            return Told::Unknown;
        }
        match restrict(self, Claim::from(p)) {
            Err(NotMade) => Told::Unknown,
            Ok(()) if self.failed() => Told::Failed,
            Ok(()) => Told::Kept,
        }
    }

    fn ask(&self, p: Primitive<Operand>) -> bool {
        is_known_all(p, self.count()) && entails(self, Claim::from(p))
    }

    fn fixed(&self, x: u8) -> bool {
        self.fixed(x)
    }

    fn failed(&self) -> bool {
        self.failed()
    }

    fn count(&self) -> usize {
        self.count()
    }
}

impl<C: Interpreted> RangedTheory for Forest<C> {
    #[tactic(auto, using(crate::proofs::Answering::least_said))]
    fn least(&self, x: u8) -> Option<i32> {
        self.least(x)
    }

    #[tactic(auto, using(crate::proofs::Answering::greatest_said))]
    fn greatest(&self, x: u8) -> Option<i32> {
        self.greatest(x)
    }
}
