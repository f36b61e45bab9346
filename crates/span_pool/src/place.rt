//! Where a span stands in the region.
ghost use Rattle.std.specs.Prelude.{◌≡◌, nat_le};

/// Where a slot's span stands in the region: from `start` up to `end`. A place that ends before it starts is
/// nobody's.
#[derive(Clone, Copy, Debug)]
pub(crate) struct Place {
    pub(crate) start: usize,
    pub(crate) end: usize,
}

/// The place of a slot without a span.
pub(crate) const NOBODYS: Place = Place { start: 1, end: 0 };

impl Place {
    pub(crate) fn is_taken(&self) -> bool
        ensures value { result ≡ nat_le self.now.start self.now.end }
    {
        self.start <= self.end
    }
}
