// The registers that lists, specs and segments name.
use crate::RegSpec;

pub const RAX: RegSpec = RegSpec { bank: 0, number: 0 };

pub const RCX: RegSpec = RegSpec { bank: 0, number: 1 };

pub const RDX: RegSpec = RegSpec { bank: 0, number: 2 };

pub const RBX: RegSpec = RegSpec { bank: 0, number: 3 };

pub const RSP: RegSpec = RegSpec { bank: 0, number: 4 };

pub const RSI: RegSpec = RegSpec { bank: 0, number: 6 };

pub const RDI: RegSpec = RegSpec { bank: 0, number: 7 };

pub const EAX: RegSpec = RegSpec { bank: 1, number: 0 };

pub const ECX: RegSpec = RegSpec { bank: 1, number: 1 };

pub const EDX: RegSpec = RegSpec { bank: 1, number: 2 };

pub const ESI: RegSpec = RegSpec { bank: 1, number: 6 };

pub const EDI: RegSpec = RegSpec { bank: 1, number: 7 };

pub const AX: RegSpec = RegSpec { bank: 2, number: 0 };

pub const CX: RegSpec = RegSpec { bank: 2, number: 1 };

pub const DX: RegSpec = RegSpec { bank: 2, number: 2 };

pub const AL: RegSpec = RegSpec { bank: 4, number: 0 };

pub const XMM0: RegSpec = RegSpec { bank: 5, number: 0 };

pub const RFLAGS: RegSpec = RegSpec {
    bank: 11,
    number: 0,
};

// The bases of fs and gs.
pub const FS: RegSpec = RegSpec {
    bank: 13,
    number: 0,
};

pub const GS: RegSpec = RegSpec {
    bank: 13,
    number: 1,
};
