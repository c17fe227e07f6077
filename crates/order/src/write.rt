//! The writer of the plan's part of an order, H to G, into a caller's buffer.

ghost use Rattle.std.specs.Prelude.{◌≡◌, ◌+◌, ◌*◌, ◌≤◌, length};
ghost use Rattle.std.specs.List.{flat_map};
ghost use Rattle.plan.specs.Trees.{tree_of};
ghost use Rattle.order.specs.Bytes.{pasted};
ghost use Rattle.order.specs.Writing.{ReadsBack, command, head_bytes, written, written_length};

use plan::plan::Plan;
use plan::shape::Shape;
use refusal::Refusal;

// H and its operands.
fn head(shape: Shape) -> [u8; 20]
    ensures { result ≡ head_bytes shape }
{
    let [p1, p0] = shape.ranks.to_be_bytes();
    let [e1, e0] = shape.elements.to_be_bytes();
    let [c1, c0] = shape.spacing.to_be_bytes();
    let [r3, r2, r1, r0] = shape.reader_threshold.to_be_bytes();
    let [w1, w0] = shape.writer_threshold.to_be_bytes();
    let [s1, s0] = shape.level2_threshold.to_be_bytes();
    let [t1, t0] = shape.level3_threshold.to_be_bytes();
    let [u1, u0] = shape.level4_threshold.to_be_bytes();
    let levels = shape.levels;
    [
        b'H', p1, p0, e1, e0, levels, c1, c0, r3, r2, r1, r0, w1, w0, s1, s0, t1, t0, u1, u0,
    ]
}

// A letter of the format, as the byte that is written, and its operand.
fn pair_command(letter: u8, operand: u16) -> [u8; 3]
    ensures { result ≡ command letter operand }
{
    let [high, low] = operand.to_be_bytes();
    [letter, high, low]
}

// A buffer, and where what is written of it ends. It is the caller's, and so no Vec.
#[derive(Drop)]
struct Writer<'a> {
    out: &'a mut [u8],
    end: usize,
}

impl Writer<'_> {
    // Lays bytes behind what is written.
    fn put(&mut self, bytes: &[u8])
        requires { self.old.end + length bytes.now ≤ length self.old.out.now }
        ensures bytes { self.new.out.now ≡ pasted self.old.out.now self.old.end bytes.now }
        ensures end { self.new.end ≡ self.old.end + length bytes.now }
        ensures kept { self.new.out.ghost_name ≡ self.old.out.ghost_name }
    {
        let end = self.end + bytes.len();
        self.out[self.end..end].copy_from_slice(bytes);
        self.end = end;
    }

    // One command with the letter of the format for each operand.
    fn put_commands(&mut self, letter: u8, operands: &[u16])
        requires { self.old.end + 3 * length operands.now ≤ length self.old.out.now }
        ensures bytes { self.new.out.now
            ≡ pasted self.old.out.now self.old.end (flat_map (command letter) operands.now) }
        ensures end { self.new.end ≡ self.old.end + 3 * length operands.now }
        ensures kept { self.new.out.ghost_name ≡ self.old.out.ghost_name }
    {
        for operand in operands {
            self.put(&pair_command(letter, *operand));
        }
    }
}

/// Writes the plan's part of an order, H to G, and answers its length.
/// A buffer that is too small is refused by 15 and left as it was; what lies behind the length written stays.
/// What is written is read in again as the same plan.
pub fn write_plan(plan: &Plan, out: &mut [u8]) -> Result<usize, Refusal>
    ensures value { result ≡ written_length (tree_of plan.now) out.old }
    ensures buffer { out.new ≡ written (tree_of plan.now) out.old }
    ensures back { ReadsBack (tree_of plan.now) }
{
    let parents = plan.parents();
    let ranks = plan.rank_elements();
    let needed = 20 + 3 * parents.len() + 3 * ranks.len() + 1;
    if out.len() < needed {
        return Err(Refusal::BufferTooSmall);
    }
    let mut writer = Writer { out, end: 0 };
    writer.put(&head(plan.shape()));
    writer.put_commands(b'E', parents);
    writer.put_commands(b'K', ranks);
    writer.put(b"G");
    Ok(writer.end)
}
