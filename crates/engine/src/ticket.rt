// The ticket of a case.
ghost use Rattle.std.specs.Prelude.{◌≡◌};

// A ticket is a plain number that has to be spent by closing: it can be neither dropped nor handed in twice. Hosts
// keep the number between calls, so a ticket of any number can be made.
pub struct Ticket {
    number: u32,
}

impl Ticket {
    pub fn of(number: u32) -> Ticket
        ensures { result ≡ record { number = number } }
    {
        Ticket { number }
    }

    // The number, for hosts that keep it.
    pub fn number(&self) -> u32
        ensures { result ≡ self.now.number }
    {
        self.number
    }

    // Spends the ticket.
    pub(crate) fn spend(self) -> u32
        ensures { result ≡ self.number }
    {
        let Ticket { number } = self;
        number
    }
}
