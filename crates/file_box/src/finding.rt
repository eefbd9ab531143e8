ghost use Rattle.std.specs.Prelude.{◌≡◌, Ok, Err, MatchResult};
ghost use Rattle.roast.specs.Narrowing.{narrowed};
ghost use Rattle.heat_file.specs.Reports.{length_or_no_room, put_in_front};
ghost use Rattle.file_box.specs.Findings.{settled, found, system_report, EnclosesIfFound};

use balance::refusal::Refusal;
use balance::system::System;
use heat_file::report::{write_box, write_refusal};
use roast::roast::Roast;

const ROUNDS: usize = 64;

// Makes rounds until one of them leaves every range, 64 or fewer.
fn settle<S: System>(roast: &mut Roast<S>) -> Result<(), Refusal>
    ensures settles { let settled = settled (narrowed (S.meaning roast.old.system)) roast.old.bounds 64 in
        MatchResult result (λ done. Ok roast.new.bounds ≡ settled) (λ e. Err e ≡ settled) }
    ensures keeps_the_system { roast.new.system ≡ roast.old.system }
{
    for _ in 0..ROUNDS {
        if roast.round()? == 0 {
            break;
        }
    }
    Ok(())
}

// Opens a roast under a certificate, and makes rounds until one changes nothing. (The caller holds the roast, as it is large.)
fn find_box<S: System>(roast: &mut Roast<S>, certificate: &[i64]) -> Result<(), Refusal>
    ensures finds_or_refuses { let found = found (S.meaning roast.old.system) certificate.now in
        MatchResult result (λ done. Ok roast.new.bounds ≡ found) (λ e. Err e ≡ found) }
    ensures keeps_the_system { roast.new.system ≡ roast.old.system }
{
    roast.open(certificate)?;
    settle(roast)
}

/// Writes the report of the box that is found for a system under a certificate, or of the first refusal. Answers how long the report is.
///
/// Refused is a report for which there is no room (14); the buffer is then as it was.
pub fn report_system<S: System + Drop>(
    system: S,
    certificate: &[i64],
    out: &mut [u8],
) -> Result<usize, Refusal>
    ensures answers { result ≡ length_or_no_room (system_report (S.meaning system) certificate.now) out.old }
    ensures writes_the_report_and_keeps_the_rest { out.new ≡ put_in_front (system_report (S.meaning system) certificate.now) out.old }
    ensures a_box_that_is_found_holds_every_solution { EnclosesIfFound (S.meaning system) (found (S.meaning system) certificate.now) }
{
    let mut roast = Roast::new(system);
    match find_box(&mut roast, certificate) {
        Ok(()) => write_box(roast.ranges(), roast.at_rest(), out),
        Err(refusal) => write_refusal(refusal, out),
    }
}
