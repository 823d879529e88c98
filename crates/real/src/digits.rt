// A number as decimal digits, on which a real is worked out exactly.
ghost use Rattle.std.specs.Prelude.{◌≤◌};

// Digits from the highest place to the lowest, the point behind the first 310: room for every finite real, and for half of the gap between two.
pub const PLACES: usize = 1385;

pub const POINT: usize = 310;

#[derive(Clone, Copy, PartialEq, PartialOrd)]
pub struct Digits {
    pub places: [u8; PLACES],
}

impl Digits {
    // A whole number, its last digit before `end`, and zeros.
    pub fn whole(number: u64, end: usize) -> Digits
        requires { end ≤ 1385 }
    {
        let mut places = [0; PLACES];
        let mut left = number;
        for digit in places[..end].iter_mut().rev() {
            *digit = (left % 10) as u8;
            left /= 10;
        }
        Digits { places }
    }

    // Half the number.
    fn halve(&mut self) {
        let mut rest = 0;
        for digit in self.places.iter_mut() {
            let left = 10 * rest + u32::from(*digit);
            *digit = (left / 2) as u8;
            rest = left % 2;
        }
    }

    // More, added to the number.
    pub fn add(&mut self, more: &Digits) {
        let mut carry = 0;
        for i in (0..PLACES).rev() {
            let sum = u32::from(self.places[i]) + u32::from(more.places[i]) + carry;
            self.places[i] = (sum % 10) as u8;
            carry = sum / 10;
        }
    }

    // Where the first digit that is not 0 stands.
    pub fn first(&self) -> usize
        ensures { result ≤ 1385 }
    {
        self.places
            .iter()
            .position(|digit| *digit != 0)
            .unwrap_or(PLACES)
    }

    // Behind the last digit that is not 0.
    pub fn last(&self) -> usize
        ensures { result ≤ 1385 }
    {
        match self.places.iter().rposition(|digit| *digit != 0) {
            Some(i) => i + 1,
            None => 0,
        }
    }

    // Zeros from `end` on.
    pub fn clear(&mut self, end: usize) {
        if let Some(rest) = self.places.get_mut(end..) {
            rest.fill(0);
        }
    }

    // The digits as characters.
    pub fn characters(&mut self) {
        for digit in self.places.iter_mut() {
            *digit = b'0' + *digit % 10;
        }
    }

    // Twice the number, so many times.
    pub fn double_times(&mut self, times: u64) {
        for _ in 0..times {
            let same = *self;
            self.add(&same);
        }
    }

    // Half the number, so many times.
    pub fn halve_times(&mut self, times: u64) {
        for _ in 0..times {
            self.halve();
        }
    }
}
