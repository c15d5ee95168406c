// The reading place, and the guard that puts it back.
ghost use Rattle.std.specs.Prelude.{◌≡◌, Some, None, unwrap_or};

// How far a text is read, in bytes from its start.
#[derive(Clone, Copy, PartialEq, Eq, Debug, Default)]
pub struct Place {
    pub at: usize,
}

// Puts the place back where it is let go, unless the reading was confirmed.
pub struct KeptPlace<'a> {
    pub place: &'a mut Place,
    back: Option<Place>,
}

impl<'a> KeptPlace<'a> {
    // Keeps the place as it is now.
    pub fn new(place: &'a mut Place) -> KeptPlace<'a>
        ensures same_reference { result.place.ghost_name ≡ place.entry.ghost_name }
        ensures same_place { result.place.now ≡ place.old }
        ensures kept { result.back ≡ Some place.old }
    {
        let back = Some(*place);
        KeptPlace { place, back }
    }

    // The reading was accepted: the place stays where it is.
    pub fn confirm(&mut self)
        ensures same_reference { self.new.place.ghost_name ≡ self.old.place.ghost_name }
        ensures same_place { self.new.place.now ≡ self.old.place.now }
        ensures confirmed { self.new.back ≡ None }
    {
        self.back = None;
    }
}

impl Drop for KeptPlace<'_> {
    fn drop(self)
        ensures { self.exit.0.now ≡ unwrap_or self.entry.back self.entry.place.now }
    {
        let KeptPlace { place, back } = self;
        if let Some(back) = back {
            *place = back;
        }
    }
}
