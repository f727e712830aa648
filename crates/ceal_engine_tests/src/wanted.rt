// Traces that the tests of repair want, as text with the work below: of the first run of a program, and of its repair
// after an edit. They were worked out by hand from the rules of the language.

/// INC on 4 and 0.
pub const INCREMENT: &str = ".v2 = read(in0.0) u1(&in1.0): 4
.in1.0 := 5
end
work 2
";

/// The same after an edit to an equal number.
pub const SAME_INCREMENT: &str = ".v2 = read(in0.0) u1(&in1.0): 4
.in1.0 := 5
end
work 0
";

/// Where 4 becomes 9.
pub const EDITED_INCREMENT: &str = ".v2 = read(in0.0) u1(&in1.0): 9
.in1.0 := 10
end
work 1
";

/// MAP on the list 1, 2, 3.
pub const MAPPED: &str = ".v2 = read(in0.0) u1(&in1.0): in2
..#0 = init 0(in2)
.in1.0 := #0
..v2 = read(in2.1) u1(&#0.1): in3
..#1 = init 0(in3)
.#0.1 := #1
..v2 = read(in3.1) u1(&#1.1): in4
..#2 = init 0(in4)
.#1.1 := #2
..v2 = read(in4.1) u1(&#2.1): null
..#2.1 := null
end
end
end
end
work 18
";

/// With another cell before the others.
pub const INSERTED: &str = ".v2 = read(in0.0) u1(&in1.0): in5
..#18 = init 0(in5)
.in1.0 := #18
..v2 = read(in5.1) u1(&#18.1): in2
..#0 = init 0(in2)
.#18.1 := #0
..v2 = read(in2.1) u1(&#0.1): in3
..#1 = init 0(in3)
.#0.1 := #1
..v2 = read(in3.1) u1(&#1.1): in4
..#2 = init 0(in4)
.#1.1 := #2
..v2 = read(in4.1) u1(&#2.1): null
..#2.1 := null
end
end
end
end
end
work 10
";

/// Without the second cell.
pub const DELETED: &str = ".v2 = read(in0.0) u1(&in1.0): in2
..#0 = init 0(in2)
.in1.0 := #0
..v2 = read(in2.1) u1(&#0.1): in4
..#2 = init 0(in4)
.#0.1 := #2
..v2 = read(in4.1) u1(&#2.1): null
..#2.1 := null
end
end
end
work 5
";

/// With another cell before the others, and one after them.
pub const EDITED_INSIDE: &str = ".v2 = read(in0.0) u1(&in1.0): in5
..#18 = init 0(in5)
.in1.0 := #18
..v2 = read(in5.1) u1(&#18.1): in2
..#0 = init 0(in2)
.#18.1 := #0
..v2 = read(in2.1) u1(&#0.1): in3
..#1 = init 0(in3)
.#0.1 := #1
..v2 = read(in3.1) u1(&#1.1): in4
..#2 = init 0(in4)
.#1.1 := #2
..v2 = read(in4.1) u1(&#2.1): in6
..#19 = init 0(in6)
.#2.1 := #19
..v2 = read(in6.1) u1(&#19.1): null
..#19.1 := null
end
end
end
end
end
end
work 17
";

/// MAP_NUMBERS on the list 7, 7, 8.
pub const HEADS: &str = ".v2 = read(in0.0) u1(&in1.0): in2
..#0 = init 0(7)
.in1.0 := #0
..v2 = read(in2.1) u1(&#0.1): in3
..#1 = init 0(7)
.#0.1 := #1
..v2 = read(in3.1) u1(&#1.1): in4
..#2 = init 0(8)
.#1.1 := #2
..v2 = read(in4.1) u1(&#2.1): null
..#2.1 := null
end
end
end
end
work 18
";

/// Without its first cell.
pub const EQUAL_HEADS: &str = ".v2 = read(in0.0) u1(&in1.0): in3
..#0 = init 0(7)
.in1.0 := #0
..v2 = read(in3.1) u1(&#0.1): in4
..#2 = init 0(8)
.#0.1 := #2
..v2 = read(in4.1) u1(&#2.1): null
..#2.1 := null
end
end
end
work 10
";

/// CONDITIONAL on a true number.
pub const BOTH_WRITES: &str = ".in1.0 := 1
..v2 = read(in0.0) u1(&in1.0): 1
..in1.0 := 2
end
.v3 = read(in1.0) u5(&in2.0): 2
.in2.0 := 2
end
work 7
";

/// Where the number loses its truth.
pub const FIRST_WRITE: &str = ".in1.0 := 1
..v2 = read(in0.0) u1(&in1.0): 0
.end
.v3 = read(in1.0) u5(&in2.0): 1
.in2.0 := 1
end
work 2
";

/// BOX where the number is 1.
pub const FIRST_BOX: &str = "..v3 = read(in0.0) u1(1, &in1.0): 1
..#0 = init 0(1)
.in1.0 := #0
end
..v3 = read(in0.0) u1(2, &in1.0): 1
.end
..v2 = read(in1.0) u4(&in2.0): #0
.in2.0 := 1
end
work 11
";

/// Where it becomes 2.
pub const SECOND_BOX: &str = "..v3 = read(in0.0) u1(1, &in1.0): 2
.end
..v3 = read(in0.0) u1(2, &in1.0): 2
..#11 = init 0(2)
.in1.0 := #11
end
..v2 = read(in1.0) u4(&in2.0): #11
.in2.0 := 2
end
work 5
";
