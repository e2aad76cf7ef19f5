// The row behind a node's own, which its second operand takes.
ghost use Rattle.std.specs.Prelude.{◌+◌, ◌≤◌, length};
ghost use Rattle.numbers.specs.Filled.{Filled};

// 0 in the row behind the first.
pub fn clear_second(marks: &mut [u8], n: usize)
    requires { n + n ≤ length marks.old }
    ensures { Filled (λ s. 0) n n marks.old marks.new }
{
    marks[n..n + n].fill(0);
}
