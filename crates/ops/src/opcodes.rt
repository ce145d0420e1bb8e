// The 36 instructions by their codes.

// Named as document 01 names them; POP* is PopMany.
#[derive(Clone, Copy, Debug, PartialEq, Eq)]
pub enum Opcode {
    Call = 1,
    Ret = 2,
    PushConstant = 3,
    PushLocal = 4,
    PushGlobal = 5,
    Pop = 6,
    PopMany = 7,
    PopLocal = 8,
    PopGlobal = 9,
    SetLocal = 10,
    SetGlobal = 11,
    Jump = 12,
    JumpCase = 13,
    TestNat = 14,
    TestInt = 15,
    TestBool = 16,
    NoOp = 17,
    Eq = 18,
    AddAddr = 19,
    SubAddr = 20,
    LtAddr = 21,
    Fetch = 22,
    Deposit = 23,
    AddInt = 24,
    SubInt = 25,
    NegInt = 26,
    LtInt = 27,
    IntToNat = 28,
    AddNat = 29,
    Add1Nat = 30,
    SubNat = 31,
    Sub1Nat = 32,
    LtNat = 33,
    OrBool = 34,
    AndBool = 35,
    NotBool = 36,
}

impl Opcode {
    ghost use Rattle.std.specs.Prelude.{◌≡◌, ◌<◌, ◌≤◌};
    ghost use Rattle.ops.specs.Opcodes.{opcode_number};

    // The last arm stands for 36: one for codes that no instruction has would cost the dispatch of each step.
    pub fn of(code: u8) -> Opcode
        requires { (0 < code) × (code ≤ 36) }
        ensures { opcode_number result ≡ code }
    {
        match code {
            1 => Opcode::Call,
            2 => Opcode::Ret,
            3 => Opcode::PushConstant,
            4 => Opcode::PushLocal,
            5 => Opcode::PushGlobal,
            6 => Opcode::Pop,
            7 => Opcode::PopMany,
            8 => Opcode::PopLocal,
            9 => Opcode::PopGlobal,
            10 => Opcode::SetLocal,
            11 => Opcode::SetGlobal,
            12 => Opcode::Jump,
            13 => Opcode::JumpCase,
            14 => Opcode::TestNat,
            15 => Opcode::TestInt,
            16 => Opcode::TestBool,
            17 => Opcode::NoOp,
            18 => Opcode::Eq,
            19 => Opcode::AddAddr,
            20 => Opcode::SubAddr,
            21 => Opcode::LtAddr,
            22 => Opcode::Fetch,
            23 => Opcode::Deposit,
            24 => Opcode::AddInt,
            25 => Opcode::SubInt,
            26 => Opcode::NegInt,
            27 => Opcode::LtInt,
            28 => Opcode::IntToNat,
            29 => Opcode::AddNat,
            30 => Opcode::Add1Nat,
            31 => Opcode::SubNat,
            32 => Opcode::Sub1Nat,
            33 => Opcode::LtNat,
            34 => Opcode::OrBool,
            35 => Opcode::AndBool,
            _ => Opcode::NotBool,
        }
    }
}
