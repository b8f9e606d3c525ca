//! The function of a memo, and the count of its calls.
use clock2q_count::Count;

/// A function that counts its calls. Only [`evaluate`](Evaluator::evaluate) calls it.
#[derive(Drop)]
pub(crate) struct Evaluator<F> {
    function: F,
    evaluations: Count,
}

impl<F> Evaluator<F> {
    ghost use Rattle.std.specs.Prelude.{◌≡◌, ◌+◌};
    ghost use Rattle.std.specs.Fn.{FnReturnsAt};
    ghost use Rattle.clock2q_memo.specs.Memo.{IsCallableAt};

    /// Returns a function that has not been called yet.
    pub(crate) fn new(function: F) -> Self
        ensures function { result.function ≡ function }
        ensures none { result.evaluations.total ≡ 0 }
    {
        Evaluator {
            function,
            evaluations: Count::new(),
        }
    }

    /// Calls the function for a key, and counts the call.
    pub(crate) fn evaluate<K, V>(&mut self, key: &K) -> V
    where
        F: Fn(&K) -> V,
        requires { IsCallableAt F.Fn self.old.function key.now }
        ensures value { FnReturnsAt F.Fn self.old.function key.now result }
        ensures function { self.new.function ≡ self.old.function }
        ensures counted { self.new.evaluations.total ≡ self.old.evaluations.total + 1 }
    {
        self.evaluations.tick();
        (self.function)(key)
    }

    /// Returns the function.
    pub(crate) fn into_function(self) -> F
        ensures function { result ≡ self.function }
    {
        self.function
    }
}
