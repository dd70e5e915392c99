//! The public calls and their numbers.
ghost use Rattle.std.specs.Prelude.{◌≡◌};
ghost use Rattle.calls_defined.specs.Numbers.{callOf};

/// The public calls, in the order of their numbers; docs/SERVE.md says of each what it takes and says.
#[derive(Clone, Copy)]
pub enum Call {
    CheckTable,
    NameOf,
    Enter,
    Compare,
    AddExponents,
    MultiplyExponents,
    NegateExponent,
    DivideExponents,
    MultiplyProducts,
    DivideProducts,
    InvertProduct,
    RaiseProduct,
    IsSet,
    IsType,
    IsScheme,
    IsBindings,
    Contains,
    Closed,
    Variables,
    Add,
    ReplaceInType,
    ReplaceInSet,
    Solve,
    Lent,
    Quantify,
    Generalise,
    Instantiate,
    Judge,
    Ceiling,
    SolveAll,
    CheckLine,
    Confirm,
}

impl Call {
    /// The call that has a number: 1 to 32.
    #[tactic(auto, unfolding(crate::specs::Numbers::callOf))]
    pub fn from_number(n: u32) -> Option<Call>
        ensures { result ≡ callOf n }
    {
        match n {
            1 => Some(Call::CheckTable),
            2 => Some(Call::NameOf),
            3 => Some(Call::Enter),
            4 => Some(Call::Compare),
            5 => Some(Call::AddExponents),
            6 => Some(Call::MultiplyExponents),
            7 => Some(Call::NegateExponent),
            8 => Some(Call::DivideExponents),
            9 => Some(Call::MultiplyProducts),
            10 => Some(Call::DivideProducts),
            11 => Some(Call::InvertProduct),
            12 => Some(Call::RaiseProduct),
            13 => Some(Call::IsSet),
            14 => Some(Call::IsType),
            15 => Some(Call::IsScheme),
            16 => Some(Call::IsBindings),
            17 => Some(Call::Contains),
            18 => Some(Call::Closed),
            19 => Some(Call::Variables),
            20 => Some(Call::Add),
            21 => Some(Call::ReplaceInType),
            22 => Some(Call::ReplaceInSet),
            23 => Some(Call::Solve),
            24 => Some(Call::Lent),
            25 => Some(Call::Quantify),
            26 => Some(Call::Generalise),
            27 => Some(Call::Instantiate),
            28 => Some(Call::Judge),
            29 => Some(Call::Ceiling),
            30 => Some(Call::SolveAll),
            31 => Some(Call::CheckLine),
            32 => Some(Call::Confirm),
            _ => None,
        }
    }
}
