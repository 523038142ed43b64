// What the codes of a trade mean.
ghost use Rattle.std.specs.Prelude.{◌≡◌, ◌<◌};
ghost use Rattle.tables.specs.Codes.{side_of, benchmark_code, family_of, first_benchmark, second_benchmark};

#[derive(Clone, Copy, PartialEq, Eq)]
pub enum Side {
    Pay,
    Receive,
}

#[derive(Clone, Copy, PartialEq, Eq)]
pub enum Benchmark {
    Mibor = 0,
    Miois = 1,
    Mifor = 2,
    ModifiedMifor = 3,
}

// Family 0 is MIBOR and MIOIS, family 1 is MIFOR and modified MIFOR.
#[derive(Clone, Copy, PartialEq, Eq)]
pub enum Family {
    Overnight,
    Forward,
}

impl From<u8> for Side {
    ghost from_gives = { λ code side. side ≡ side_of code };

    // Code 0 is pay. Any number may come: the limits of rows allow 0 and 1.
    fn from(code: u8) -> Side {
        if code == 0 { Side::Pay } else { Side::Receive }
    }
}

impl From<Benchmark> for u32 {
    ghost from_gives = { λ benchmark code. code ≡ benchmark_code benchmark };

    fn from(benchmark: Benchmark) -> u32 {
        benchmark as u32
    }
}

impl From<u32> for Family {
    ghost from_gives = { λ code family. family ≡ family_of code };

    // Code 0 is the overnight family. Any number may come: the calls that name a family refuse one above 1.
    fn from(code: u32) -> Family {
        match code {
            0 => Family::Overnight,
            _ => Family::Forward,
        }
    }
}

impl Family {
    pub fn first(self) -> Benchmark
        ensures { result ≡ first_benchmark self }
    {
        match self {
            Family::Overnight => Benchmark::Mibor,
            Family::Forward => Benchmark::Mifor,
        }
    }

    pub fn second(self) -> Benchmark
        ensures { result ≡ second_benchmark self }
    {
        match self {
            Family::Overnight => Benchmark::Miois,
            Family::Forward => Benchmark::ModifiedMifor,
        }
    }
}
