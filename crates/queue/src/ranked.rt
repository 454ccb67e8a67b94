// What is asked of an entry: an order by which the queue takes a smallest.
ghost use Rattle.std.specs.Prelude.{◌≡◌, Bool, true, false};

// An entry, by an order that is total and transitive.
pub trait Ranked: Copy {
    ghost ahead: { Self → Self → Bool };

    fn at_most(&self, other: &Self) -> bool
        ensures { result ≡ ahead self.now other.now };

    ghost total: { (x y : Self) → ahead x y ≡ false → ahead y x ≡ true };

    ghost chain: { (x y z : Self) → ahead x y ≡ true → ahead y z ≡ true → ahead x z ≡ true };
}
