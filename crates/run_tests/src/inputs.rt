// Inputs that several tests complete.

// 1 + t1*x and 1 + t2*y on two lines.
pub const TWO_LINES: &str = "scatter 1
vars 2
line 1 0 at 0 0
term 1 1 1 0
line 0 1 at 0 0
term 1 1 0 1
end
";

pub const TWO_LINES_AT_1: &str = "scatter 1
vars 2
order 1
line 1 0 at 0 0
term 1 1 1 0
line 0 1 at 0 0
term 1 1 0 1
end
";

// 1 + t1*x and (1 + t2*y)^2.
pub const ONE_AND_TWO: &str = "scatter 1
vars 2
line 1 0 at 0 0
term 1 1 1 0
line 0 1 at 0 0
term 2 1 0 1
term 1 2 0 2
end
";

// 1 + t1*x, 1 + t2*y and 1 + t3*x on three lines, which meet in (0, 0) and (0, 1).
pub const THREE_LINES: &str = "scatter 1
vars 3
line 1 0 at 0 0
term 1 1 1 0 0
line 0 1 at 0 0
term 1 1 0 1 0
line 1 0 at 0 1
term 1 1 0 0 1
end
";

// (1 + t1*x)^2 and (1 + t2*y)^2, and asks of two readers, of which the last wants a later order.
pub const SESSION_OF_TWO_READERS: &str = "scatter 1
vars 2
line 1 0 at 0 0
term 2 1 1 0
term 1 2 2 0
line 0 1 at 0 0
term 2 1 0 1
term 1 2 0 2
ask 1 theta -1 0 at 2 1
ask 2 theta -1 0 at 2 1
settle
ask 1 theta -1 0 at 2 1
ask 2 theta -1 0 at 2 1
ask 1 theta -1 0 at 2 1 order 9
end
";
