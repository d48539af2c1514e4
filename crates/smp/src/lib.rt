// SMP requests: what is refused, and the call.
#![tactic(auto)]

ghost use Rattle.std.specs.Prelude.{◌≡◌, [], ◌∷◌};
ghost use Rattle.permit.specs.Permission.{Width};
ghost use Rattle.tables.specs.Refusals.{first_refusal};
ghost use Rattle.tables.specs.Outcome.{out};
ghost use Rattle.tables.specs.Numbers.{refused};
ghost use Rattle.smp.specs.Smp.{answered_as, smp_checks, smp_out};

use discover::Changes;
use requests::FunctionResult;
use tables::READY;
use tables::refusal::Refusal;
use wire::PhyNumber;

// What is answered to a request that is not refused: its result, how many bytes the response has, and how many phys are told.
#[derive(Clone, Copy, Debug, PartialEq, Eq)]
pub struct Answered {
    pub result: FunctionResult,
    pub length: u16,
    pub told: u8,
}

// The refusals of a request, whatever the change counts are.
pub fn check_smp(
    width: usize,
    phys: &[u8],
    permissions: &[u8],
    phy: PhyNumber,
    carried: u8,
    request: &[u8],
    room: bool,
) -> Result<(), Refusal>
    requires { Width width }
    ensures { (changes : Changes) → refused result ≡ first_refusal (smp_checks width phys.now permissions.now phy.0 carried changes request.now room) }
{
    let sizes = permit::permissions_sized(width, permissions);
    tables::check_arrival(phys, phy, sizes, room, READY)?;
    if request.len() < 4 {
        return Err(Refusal::WrongLength);
    }
    if request[0] != 0x40 {
        return Err(Refusal::WrongField);
    }
    let Some(_) = requests::smp_source(phys, phy, carried) else {
        return Err(Refusal::WrongField);
    };
    if rules::too_long(width, phys, permissions, phy, carried, request) {
        return Err(Refusal::TooLong);
    }
    Ok(())
}

// An SMP request arrives; `carried` is the group of the connection's OPEN, its byte 20 with bit 7 taken off, and `changes` what the caller
// counted.
pub fn smp_at(
    width: usize,
    phys: &mut [u8],
    permissions: &mut [u8],
    phy: PhyNumber,
    carried: u8,
    changes: Changes,
    request: &[u8],
    response: &mut [u8],
    set: &mut [u8],
) -> Result<Answered, Refusal>
    requires { Width width }
    ensures { out (answered_as result) (phys.new ∷ permissions.new ∷ response.new ∷ set.new ∷ []) ≡ smp_out width phys.old permissions.old phy.0 carried changes request.now response.old set.old }
{
    let room = (1020 <= response.len()) & (16 <= set.len());
    check_smp(width, phys, permissions, phy, carried, request, room)?;
    let ruled = rules::rule(
        width,
        phys,
        permissions,
        phy,
        carried,
        changes,
        request,
        response,
        set,
    );
    Ok(Answered {
        result: ruled.result,
        length: ruled.written,
        told: wire::phys_in(set),
    })
}

// Document 01's shelf.
pub fn smp(
    phys: &mut [u8],
    permissions: &mut [u8],
    phy: PhyNumber,
    carried: u8,
    changes: Changes,
    request: &[u8],
    response: &mut [u8],
    set: &mut [u8],
) -> Result<Answered, Refusal>
    ensures { out (answered_as result) (phys.new ∷ permissions.new ∷ response.new ∷ set.new ∷ []) ≡ smp_out 16 phys.old permissions.old phy.0 carried changes request.now response.old set.old }
{
    smp_at(
        16,
        phys,
        permissions,
        phy,
        carried,
        changes,
        request,
        response,
        set,
    )
}
