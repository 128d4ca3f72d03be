//! The sample files: hierarchies H1 and C1, traces X1 and X2, and plans of them.
#![tactic(auto)]

/// The hierarchical sample: Serial; VolA and VolB below it; A0 and A1 below VolA; B0 and B1 below
/// VolB.
pub const H1: &str = "model = \"hierarchical\"\n\
[[space]]\n\
name = \"f\"\n\
size = 8\n\
[[space]]\n\
name = \"m\"\n\
size = 2\n\
[[space]]\n\
name = \"g\"\n\
size = 8\n\
[[affinity]]\n\
name = \"Serial\"\n\
[[affinity]]\n\
name = \"VolA\"\n\
parent = \"Serial\"\n\
[[affinity]]\n\
name = \"VolB\"\n\
parent = \"Serial\"\n\
[[affinity]]\n\
name = \"A0\"\n\
parent = \"VolA\"\n\
[[affinity]]\n\
name = \"A1\"\n\
parent = \"VolA\"\n\
[[affinity]]\n\
name = \"B0\"\n\
parent = \"VolB\"\n\
[[affinity]]\n\
name = \"B1\"\n\
parent = \"VolB\"\n\
[[map]]\n\
space = \"f\"\n\
unit = 2\n\
to = [\"A0\", \"A1\"]\n\
[[map]]\n\
space = \"m\"\n\
unit = 1\n\
to = [\"VolA\"]\n\
[[map]]\n\
space = \"g\"\n\
unit = 4\n\
to = [\"B0\", \"B1\"]\n\
";

/// The classical sample: Serial, and T0 and T1 below it.
pub const C1: &str = "model = \"classical\"\n\
[[space]]\n\
name = \"f\"\n\
size = 8\n\
[[space]]\n\
name = \"m\"\n\
size = 2\n\
[[space]]\n\
name = \"g\"\n\
size = 8\n\
[[affinity]]\n\
name = \"Serial\"\n\
[[affinity]]\n\
name = \"T0\"\n\
parent = \"Serial\"\n\
[[affinity]]\n\
name = \"T1\"\n\
parent = \"Serial\"\n\
[[map]]\n\
space = \"f\"\n\
unit = 2\n\
to = [\"T0\", \"T1\"]\n\
[[map]]\n\
space = \"m\"\n\
unit = 1\n\
to = [\"Serial\"]\n\
[[map]]\n\
space = \"g\"\n\
unit = 4\n\
to = [\"T0\", \"T1\"]\n\
";

/// The first trace, of version 1.
pub const X1: &str = "message,cost,ops\n\
m1,4,set f:0 5\n\
m2,3,set g:0 7\n\
m3,2,copy f:2 f:0\n\
m4,5,add g:4 1\n\
m5,1,swap f:2 g:0\n\
m6,2,add f:4 1\n\
";

/// The second trace, of version 2.
pub const X2: &str = "message,cost,release,ops\n\
m1,4,0,set f:0 5\n\
m2,3,2,set g:0 7\n\
m3,2,10,copy f:2 f:0\n\
m4,5,0,add g:4 1\n\
m5,1,0,swap f:2 g:0\n\
";

/// The unlimited plan of the first trace under the hierarchical sample.
pub const PLAN_H1_X1: &str = "message,affinity,start,finish,worker\n\
1,A0,0,4,-\n\
2,B0,0,3,-\n\
3,VolA,4,6,-\n\
4,B1,0,5,-\n\
5,Serial,6,7,-\n\
6,A0,7,9,-\n\
workers,-\n\
total,17\n\
length,9\n\
chain,1 3 5 6\n\
cost,9\n\
bound,9,9\n\
";

/// The plan of the first trace under the hierarchical sample for two workers.
pub const PLAN_H1_X1_WORKERS2: &str = "message,affinity,start,finish,worker\n\
1,A0,0,4,1\n\
2,B0,0,3,2\n\
3,VolA,4,6,1\n\
4,B1,3,8,2\n\
5,Serial,8,9,1\n\
6,A0,9,11,1\n\
workers,2\n\
total,17\n\
length,11\n\
chain,4 5 6\n\
cost,8\n\
bound,22,25\n\
";

/// The unlimited plan of the second trace under the hierarchical sample.
pub const PLAN_H1_X2: &str = "message,affinity,start,finish,worker\n\
1,A0,0,4,-\n\
2,B0,2,5,-\n\
3,VolA,10,12,-\n\
4,B1,0,5,-\n\
5,Serial,12,13,-\n\
workers,-\n\
total,15\n\
length,13\n\
chain,3 5\n\
release,10\n\
cost,3\n\
bound,13,13\n\
";
