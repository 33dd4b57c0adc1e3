// Ways of passing each reading on to a method below.
ghost use Rattle.std.specs.Prelude.{◌≡◌, Bool};
ghost use Rattle.through.specs.Through.{passed_on};

pub trait Passing {
    type Above: Copy;

    type Below: Copy;

    // which readings are within its limits
    ghost fits: { Self → Self.Above → Bool };

    // what a reading is passed on as
    ghost passed: { Self → Self.Above → Self.Below };

    // What is passed on, for a reading within its limits.
    fn pass(&self, r: Self::Above) -> Option<Self::Below>
        ensures { result ≡ passed_on (fits self.now) (passed self.now) r };
}
