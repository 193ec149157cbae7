//! A list of the calls that fail, and a count of those that were made.
ghost use Rattle.std.specs.Prelude.{◌≡◌, ◌+◌};

/// Which of an object's calls are to fail, by their numbers from 1.
#[derive(Drop)]
pub struct CallList {
    made: u64,
    fails: Vec<u64>,
}

impl CallList {
    ghost use Rattle.sk_outside.specs.Calls.{made_of, fails_of, next_of, next_fails};

    /// No call was made yet. The call with number n, from 1, fails where n is in `fails`.
    pub fn new(fails: Vec<u64>) -> Self
        ensures made { made_of result ≡ 0 }
        ensures fails { fails_of result ≡ fails.items }
    {
        CallList { made: 0, fails }
    }

    /// Counts a call, and says whether it fails.
    pub fn next_fails(&mut self) -> bool
        ensures answer { result ≡ next_fails self.old }
        ensures made { made_of self.new ≡ next_of self.old }
        ensures fails { fails_of self.new ≡ fails_of self.old }
    {
        self.made = self.made.saturating_add(1);
        self.fails.contains(&self.made)
    }
}
