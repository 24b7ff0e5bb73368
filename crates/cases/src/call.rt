// The library's calls.
use std::fmt;

#[derive(Clone, Copy)]
pub(crate) enum Call {
    CheckTable,
    Records,
    FirstCycle,
    CheckEvidence,
    MakeEvidence,
}

impl Call {
    pub(crate) const COUNT: usize = 5;

    pub(crate) const ALL: [Call; Call::COUNT] = [
        Call::CheckTable,
        Call::Records,
        Call::FirstCycle,
        Call::CheckEvidence,
        Call::MakeEvidence,
    ];
}

// A number that is no call's.
#[derive(Debug, Clone, Copy)]
pub(crate) struct UnknownCall(u32);

// Cases name calls by their numbers.
impl TryFrom<u32> for Call {
    type Error = UnknownCall;

    fn try_from(number: u32) -> Result<Call, UnknownCall> {
        match number {
            1 => Ok(Call::CheckTable),
            2 => Ok(Call::Records),
            3 => Ok(Call::FirstCycle),
            4 => Ok(Call::CheckEvidence),
            5 => Ok(Call::MakeEvidence),
            _ => Err(UnknownCall(number)),
        }
    }
}

impl fmt::Display for Call {
    fn fmt<W: fmt::Write>(&self, f: &mut fmt::Formatter<W>) -> fmt::Result {
        f.write_str(match self {
            Call::CheckTable => "check_table",
            Call::Records => "records",
            Call::FirstCycle => "first_cycle",
            Call::CheckEvidence => "check_evidence",
            Call::MakeEvidence => "make_evidence",
        })
    }
}
