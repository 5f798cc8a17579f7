// Work that was ordered, as whoever ordered it keeps it.
use crate::desk::Desk;
use crate::work::Work;
use std::marker::Model;

/// Work that was ordered: its desk, and its result from when it was found or brought until it is taken.
///
/// What is kept fits what was given.
#[derive(Drop)]
pub struct Pending<W: Work> {
    desk: Desk<W>,
    kept: Option<W::Out>,
}

impl<W: Work> Model for Pending<W> {
    ghost use Rattle.std.specs.Prelude.{IfSome};
    ghost use Rattle.xdb_order.specs.Pending.{PendingView, pending};

    ghost Value = { PendingView W.In W.Out };

    ghost view = { λ p. pending p.desk.given p.desk.story p.kept };

    ghost invariant = { λ p. IfSome p.kept (W.fits p.desk.given) };
}

impl<W: Work> Pending<W> {
    ghost use Rattle.std.specs.Prelude.{◌≡◌, Some, None, IfSome, is_some};
    ghost use Rattle.std.specs.Option.{option_copied};
    ghost use Rattle.xdb_order.specs.Pending.{pending, Arrives, KeepsFitting};

    /// Nothing is kept yet.
    pub fn new(desk: Desk<W>) -> Self
        ensures { result ≡ pending desk.given desk.story None }
    {
        Pending { desk, kept: None }
    }

    pub fn given(&self) -> &W::In
        ensures { result.now ≡ self.now.given }
    {
        self.desk.given()
    }

    /// Whether the result is kept. The desk isn't looked at.
    pub fn is_kept(&self) -> bool
        ensures kept { result ≡ is_some self.now.kept }
        ensures fits { KeepsFitting W.fits self.now }
    {
        self.kept.is_some()
    }

    /// The result, if it is kept.
    pub fn kept(&self) -> Option<&W::Out>
        ensures kept { option_copied result ≡ self.now.kept }
        ensures fits { KeepsFitting W.fits self.now }
    {
        self.kept.as_ref()
    }

    /// Looks at the desk once where nothing is kept, keeps what it finds, and answers whether the result is kept then.
    /// It takes no memory and never waits.
    pub fn arrived(&mut self) -> bool
        ensures { Arrives W.fits self.old self.new result }
    {
        if self.kept.is_none() {
            self.kept = self.desk.collect();
        }
        self.kept.is_some()
    }

    /// Keeps this result, which came some other way than over the desk.
    pub fn bring(&mut self, out: W::Out)
        requires { W.fits self.old.given out }
        ensures { self.new ≡ pending self.old.given self.old.story (Some out) }
    {
        self.kept = Some(out);
    }

    /// Takes the result, if it is kept.
    pub fn into_kept(self) -> Option<W::Out>
        ensures kept { result ≡ self.kept }
        ensures fits { IfSome result (W.fits self.given) }
    {
        self.kept
    }
}
