//! Which seats a worker visits, and in which order.

/// A seat, by its kind and its number among those of its kind, counted from 0.
#[derive(Clone, Copy)]
pub enum SeatOf {
    Coordinator,
    Resource(usize),
    Manager(usize),
}

/// The cycle of a worker: so many shared seats, which are the coordinator's and then the resources', from this one on; and
/// then the seats of its own managers, which begin at this one. Its places go from 0 to the last.
#[derive(Clone, Copy)]
pub struct Course {
    pub shared: u32,
    pub first: u32,
    pub own: u32,
    pub last: u32,
}

impl Course {
    /// The seat at a place of the cycle.
    pub fn seat_at(self, place: u32) -> SeatOf {
        if place >= self.shared {
            return SeatOf::Manager((self.own as usize) + ((place - self.shared) as usize));
        }
        let number = ((self.first as usize) + (place as usize)) % (self.shared as usize);
        if number == 0 {
            SeatOf::Coordinator
        } else {
            SeatOf::Resource(number - 1)
        }
    }

    /// The place behind it.
    pub fn behind(self, place: u32) -> u32 {
        if place < self.last { place + 1 } else { 0 }
    }
}
