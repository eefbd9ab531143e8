// A system of another part: the drum's shaft in three pieces, heated at its far end and cooled at the near one.
use super::piles::settled;
use super::tell;
use balance::range::Range;
use balance::system::System;
use chain::Chain;

// Conductances in mW/K, the heat in µW.
const LINK: Range = Range {
    lower: 1_998,
    upper: 2_002,
};

const OUTSIDE: Range = Range {
    lower: 1_990,
    upper: 2_010,
};

const HEAT: Range = Range {
    lower: 99_000_000,
    upper: 101_000_000,
};

pub fn run(rt: &HostRuntime) -> anyhow::Result<()> {
    println!(rt; "a shaft of three pieces as a chain, in millidegrees above the outside")?;
    let shaft = Chain::new(3, LINK, OUTSIDE, HEAT)?;
    for (i, range) in settled(shaft, [100, 130, 142])?.iter().enumerate() {
        println!(rt; "  node {}: {range}", i + 1)?;
    }
    slips(rt)
}

fn slips(rt: &HostRuntime) -> anyhow::Result<()> {
    println!(rt; "slips in chains")?;
    let made = Chain::new(33, LINK, OUTSIDE, HEAT);
    tell(rt, "a chain of 33 nodes", made)?;
    let negative = Range {
        lower: -1,
        upper: 2_010,
    };
    let made = Chain::new(3, LINK, negative, HEAT);
    tell(rt, "a way to the outside of [-1, 2010]", made)?;
    let wide = Range {
        lower: 0,
        upper: 1_048_576,
    };
    let shaft = Chain::new(3, wide, OUTSIDE, HEAT)?;
    tell(
        rt,
        "the coefficient of row 2, column 2 with links of 1048576",
        shaft.coefficient(2, 2),
    )
}
