// The kinds of records.
ghost use Rattle.std.specs.Prelude.{◌≡◌};
ghost use Rattle.records.specs.Requests.{kind_numbered};

use rules::refusals::Refusal;

#[derive(Clone, Copy)]
pub enum RecordKind {
    FrameIn,
    Take,
    Age,
    Counter,
    Port,
    Vlan,
    ClearVlan,
    Static,
    Remove,
    Map,
    QueueSwitch,
    Drain,
    Bpdu,
}

impl TryFrom<u16> for RecordKind {
    type Error = Refusal;

    ghost try_from_gives = { λ number made. made ≡ kind_numbered number };

    #[tactic(auto, unfolding(crate::specs::Requests::kind_numbered, crate::specs::Requests::kind_in, crate::specs::Requests::kinds, crate::specs::Requests::row_of))]
    fn try_from(number: u16) -> Result<RecordKind, Refusal> {
        match number {
            1 => Ok(RecordKind::FrameIn),
            2 => Ok(RecordKind::Take),
            3 => Ok(RecordKind::Age),
            4 => Ok(RecordKind::Counter),
            5 => Ok(RecordKind::Port),
            6 => Ok(RecordKind::Vlan),
            7 => Ok(RecordKind::ClearVlan),
            8 => Ok(RecordKind::Static),
            9 => Ok(RecordKind::Remove),
            10 => Ok(RecordKind::Map),
            11 => Ok(RecordKind::QueueSwitch),
            12 => Ok(RecordKind::Drain),
            13 => Ok(RecordKind::Bpdu),
            _ => Err(Refusal::BadRecord),
        }
    }
}
