// Writers of one item each, at the front of the part of a buffer that is lent to them; each answers how many bytes it wrote.
// Stays: document 01's form, each writer is lent the part of the buffer behind what was written so far, with room for its own item.
ghost use Rattle.std.specs.Prelude.{◌≡◌, ◌∷◌, [], ◌++◌, ◌≤◌, length, drop};
ghost use Rattle.laws.specs.Lending.{size, Logged};
ghost use Rattle.definition.specs.Listings.{operand_bytes, item_bytes};
ghost use Rattle.definition.specs.declared.Item.TheVariants.{Flags, Implicit, Explicit};
ghost use Rattle.implicit.specs.declared.ImplicitOperand.TheVariants.{Disp, MemBaseIndexScale};

use access::Access;
use definition::Item;
use implicit::ImplicitOperand;
use registers::RegSpec;

// The first byte of an item: what it is, and of an implicit operand its form.
const FLAGS: u8 = 0x41;

const REGISTER: u8 = 0x42;

const MEM_DEREF: u8 = 0x43;

const DISP: u8 = 0x44;

const MEM_BASE_INDEX_SCALE: u8 = 0x45;

const EXPLICIT: u8 = 0x46;

// Stays: no switch on steps but a match on the cases of an enum, each with what it holds.
pub fn put_item(out: &mut [u8], item: Item) -> usize
    requires { size item_bytes (item ∷ []) ≤ length out.old }
    ensures { Logged item_bytes (item ∷ []) out.old out.new result }
{
    match item {
        Item::Flags(a) => put_flags(out, a),
        Item::Implicit(o, a) => put_implicit(out, o, a),
        Item::Explicit(i, s, a) => put_explicit(out, i, s, a),
    }
}

fn put_flags(out: &mut [u8], a: Access) -> usize
    requires { 2 ≤ length out.old }
    ensures { (result ≡ 2) × (out.new ≡ item_bytes (Flags a) ++ drop 2 out.old) }
{
    out[0] = FLAGS;
    out[1] = a.to_bits();
    2
}

fn put_explicit(out: &mut [u8], i: u8, s: u8, a: Access) -> usize
    requires { 4 ≤ length out.old }
    ensures { (result ≡ 4) × (out.new ≡ item_bytes (Explicit i s a) ++ drop 4 out.old) }
{
    out[0] = EXPLICIT;
    out[1] = i;
    out[2] = s;
    out[3] = a.to_bits();
    4
}

// The operand's form and its bytes, and behind them the access.
fn put_implicit(out: &mut [u8], o: ImplicitOperand, a: Access) -> usize
    requires { size item_bytes (Implicit o a ∷ []) ≤ length out.old }
    ensures { Logged item_bytes (Implicit o a ∷ []) out.old out.new result }
{
    let n = put_operand(out, o);
    out[n] = a.to_bits();
    n + 1
}

// Stays: no switch on steps but a match on the cases of an enum, four forms with what each holds.
fn put_operand(out: &mut [u8], o: ImplicitOperand) -> usize
    requires { size operand_bytes (o ∷ []) ≤ length out.old }
    ensures { Logged operand_bytes (o ∷ []) out.old out.new result }
{
    match o {
        ImplicitOperand::Register(y) => put_register(out, REGISTER, y),
        ImplicitOperand::MemDeref(y) => put_register(out, MEM_DEREF, y),
        ImplicitOperand::Disp(y, d) => put_disp(out, y, d),
        ImplicitOperand::MemBaseIndexScale(y, z, k) => put_base_index(out, y, z, k),
    }
}

// A register, or memory at a register: the kind tells them apart.
// Stays: the kind is the byte that is written, one of the two above.
fn put_register(out: &mut [u8], kind: u8, y: RegSpec) -> usize
    requires { 3 ≤ length out.old }
    ensures { (result ≡ 3) × (out.new ≡ (kind ∷ y.bank ∷ y.number ∷ []) ++ drop 3 out.old) }
{
    out[0] = kind;
    out[1] = y.bank;
    out[2] = y.number;
    3
}

fn put_disp(out: &mut [u8], y: RegSpec, d: u32) -> usize
    requires { 7 ≤ length out.old }
    ensures { (result ≡ 7) × (out.new ≡ operand_bytes (Disp y d) ++ drop 7 out.old) }
{
    put_register(out, DISP, y);
    laws::put_u32(&mut out[3..], d);
    7
}

fn put_base_index(out: &mut [u8], y: RegSpec, z: RegSpec, k: u8) -> usize
    requires { 6 ≤ length out.old }
    ensures { (result ≡ 6) × (out.new ≡ operand_bytes (MemBaseIndexScale y z k) ++ drop 6 out.old) }
{
    out[0] = MEM_BASE_INDEX_SCALE;
    out[1] = y.bank;
    out[2] = y.number;
    out[3] = z.bank;
    out[4] = z.number;
    out[5] = k;
    6
}
