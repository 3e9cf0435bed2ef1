//! Work that is lent to a scope of threads, and given back by it.

ghost use Rattle.std.specs.Prelude.{◌≡◌};

/// Work that is done once, and gives back what it holds. A scope says nothing of a `&mut` that its closure holds, but all that the
/// closure ensures of a value of a type parameter.
pub(crate) trait Task {
    type Output;

    ghost can_run: { Self → Type 0 };

    ghost run_gives: { Self → Self.Output → Type 0 };

    fn run(self) -> Self::Output
        requires { can_run self }
        ensures { run_gives self result };
}

/// A closure that is lent.
#[derive(Drop)]
pub(crate) struct Lent<'a, F> {
    pub(crate) work: &'a mut F,
}

impl<'a, F: FnMut() -> A, A> Task for Lent<'a, F> {
    type Output = (&'a mut F, A);

    ghost can_run = { λ t. F.pre t.work.now };

    ghost run_gives = { λ t r. (r.0.ghost_name ≡ t.work.ghost_name) × F.step t.work.now r.1 r.0.now };

    fn run(self) -> (&'a mut F, A) {
        let Lent { work } = self;
        let done = work();
        (work, done)
    }
}

/// Does nothing: this use of what is given back ties it to what was lent.
pub(crate) fn take_back<T>(lent: &mut T)
    ensures { lent.new ≡ lent.old }
{
    let _ = lent;
}
