ghost use Rattle.std.specs.Prelude.{◌≡◌};
ghost use Rattle.bas_edge.specs.Failures.{failing_at};

use crate::failures::Failures;
use std::marker::Model;

/// An object of which chosen calls fail. Contracts see what it holds, and its calls.
#[derive(Debug, Drop)]
pub struct Failing<T> {
    pub(crate) inner: T,
    pub(crate) failures: Failures,
}

impl<T> Model for Failing<T> {
    ghost use Rattle.bas_edge.specs.Failures.{Failing, failing_code};

    ghost Value = { Failing T };

    ghost coded = { failing_code T.code };

    ghost view = { λ it. record { held = it.inner; calls = it.failures } };
}

impl<T> Failing<T> {
    /// The object, of which the calls with these numbers fail. No call was made yet.
    pub(crate) fn over(inner: T, failing: Vec<u64>) -> Failing<T>
        ensures { result ≡ failing_at inner failing.items }
    {
        Failing {
            inner,
            failures: Failures::new(failing),
        }
    }
}
