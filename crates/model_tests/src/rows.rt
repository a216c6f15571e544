// Files, a line each: the number and the place of the refusal, a name, a colon and the file in words.
// An accepted file has 0 and the number of its edges.

// One file or more for each clause of each refusal of a file.
pub const REFUSED: &str = "\
1 0 one byte: 08
1 0 two bytes: 08 00
1 0 three bytes: 08 00 01
1 8 one byte after the head: one 0c
1 8 three bytes after the head: one 0c 00 02
1 20 three bytes after an edge: one edge 0c 00 02
1 0 a first record of length 0: 00 00 01 00 01 00 00 00
1 0 a first record of length 3: 03 00 01 00 01 00 00 00
1 8 an edge of length 0: one 00 00 02 00 00 00 00 00 00 00 00 00
1 8 an edge of length 3: one 03 00 02 00 00 00 00 00 00 00 00 00
1 0 a head that ends past the file: 09 00 01 00 01 00 00 00
1 8 an edge that ends past the file: one 0d 00 02 00 00 00 00 00 00 00 00 00
1 20 a second edge that ends past the file: one edge 0c 01 02 00 00 00 00 00 00 00 00 00
1 0 65,537 bytes: one 5460*edge 00 00 00 00 00 00 00 00 00
2 0 no bytes:
2 0 an edge first: edge
2 0 kind 0 first: 08 00 00 00 01 00 00 00
2 0 kind 257 first: 08 00 01 01 01 00 00 00
2 8 a second head: one one
2 20 a second head after an edge: one edge one
2 8 kind 0 after the head: one 0c 00 00 00 00 00 00 00 00 00 00 00
2 8 kind 3 after the head: one 0c 00 03 00 00 00 00 00 00 00 00 00
2 8 kind 258 after the head: one 0c 00 02 02 00 00 00 00 00 00 00 00
2 12296 1,025 edges: one 1025*edge
2 12296 1,025 edges and more, 65,536 bytes: one 5460*edge 00 00 00 00 00 00 00 00
3 0 a head of 4 bytes: 04 00 01 00
3 0 a head of 7 bytes: 07 00 01 00 01 00 00
3 0 a head of 9 bytes: 09 00 01 00 01 00 00 00 00
3 0 a head of 264 bytes, the low byte 8: 08 01 01 00 01 00 00 00 21*edge 00 00 00 00
3 0 the head's spare byte: 08 00 01 00 01 00 00 01
3 8 an edge of 4 bytes: one 04 00 02 00
3 8 an edge of 10 bytes, without its count: one 0a 00 02 00 00 00 00 00 00 00
3 8 an edge of 10 bytes before another: one 0a 00 02 00 00 00 00 00 00 00 edge
3 8 an edge of 11 bytes: one 0b 00 02 00 00 00 00 00 00 00 00
3 8 no atom in 13 bytes: one 0d 00 02 00 00 00 00 00 00 00 00 00 00
3 8 no atom in 20 bytes: three 14 00 02 00 00 00 00 00 00 00 00 00 atom
3 8 one atom in 12 bytes: three 0c 00 02 00 00 00 00 00 00 00 01 00
3 8 one atom in 28 bytes: three 1c 00 02 00 00 00 00 00 00 00 01 00 2*atom
3 8 an edge's spare byte: one 0c 00 02 00 00 00 00 00 00 00 00 01
3 20 the second edge's spare byte: one edge 0c 00 02 00 00 00 00 00 00 00 00 ff
3 8 an atom's first spare byte: three 14 00 02 00 00 00 00 00 00 00 01 00 00 00 01 00 00 00 00 00
3 8 an atom's second spare byte: three 14 00 02 00 00 00 00 00 00 00 01 00 00 00 00 01 00 00 00 00
3 8 the second atom's first spare byte: three 1c 00 02 00 00 00 00 00 00 00 02 00 atom 00 00 01 00 00 00 00 00
3 8 the second atom's second spare byte: three 1c 00 02 00 00 00 00 00 00 00 02 00 atom 00 00 00 01 00 00 00 00
4 0 no location: 08 00 01 00 00 00 00 00
4 0 257 locations: 08 00 01 00 01 01 00 00
4 0 512 locations: 08 00 01 00 00 02 00 00
4 0 5 clocks: 08 00 01 00 01 00 05 00
4 8 label 32: one 0c 00 02 00 00 00 00 00 20 00 00 00
4 20 label 32 on the second edge: one edge 0c 00 02 00 00 00 00 00 20 00 00 00
4 8 label 255: one 0c 00 02 00 00 00 00 00 ff 00 00 00
4 8 five atoms in 52 bytes: three 34 00 02 00 00 00 00 00 00 00 05 00 5*atom
4 8 comparison 4: three 14 00 02 00 00 00 00 00 00 00 01 00 00 04 00 00 00 00 00 00
4 8 comparison 4 in the second atom: three 1c 00 02 00 00 00 00 00 00 00 02 00 atom 00 04 00 00 00 00 00 00
4 8 constant 100,001: three 14 00 02 00 00 00 00 00 00 00 01 00 00 00 00 00 a1 86 01 00
4 8 constant 16,777,216: three 14 00 02 00 00 00 00 00 00 00 01 00 00 00 00 00 00 00 00 01
4 8 constant 100,001 in the second atom: three 1c 00 02 00 00 00 00 00 00 00 02 00 atom 00 00 00 00 a1 86 01 00
5 8 from location 3 of 3: three 0c 00 02 00 03 00 00 00 00 00 00 00
5 8 from location 256, the low byte 0: three 0c 00 02 00 00 01 00 00 00 00 00 00
5 8 to location 3 of 3: three 0c 00 02 00 00 00 03 00 00 00 00 00
5 8 to location 256, the low byte 0: three 0c 00 02 00 00 00 00 01 00 00 00 00
5 20 to location 3 of 3 on the second edge: three edge 0c 00 02 00 00 00 03 00 00 00 00 00
5 8 a reset without clocks: one 0c 00 02 00 00 00 00 00 00 01 00 00
5 8 reset bit 2 of 2 clocks: three 0c 00 02 00 00 00 00 00 00 04 00 00
5 8 reset bit 7 of 2 clocks: three 0c 00 02 00 00 00 00 00 00 80 00 00
5 8 an atom without clocks: one 14 00 02 00 00 00 00 00 00 00 01 00 atom
5 8 an atom on clock 2 of 2: three 14 00 02 00 00 00 00 00 00 00 01 00 02 00 00 00 00 00 00 00
5 8 the second atom on clock 2 of 2: three 1c 00 02 00 00 00 00 00 00 00 02 00 atom 02 00 00 00 00 00 00 00
6 20 from 1, then from 0: three 0c 00 02 00 01 00 00 00 00 00 00 00 edge
6 32 from 0, from 2, then from 1: three edge 0c 00 02 00 02 00 00 00 00 00 00 00 0c 00 02 00 01 00 00 00 00 00 00 00";

// Files that break two rules: in one record the lowest number counts, and of two records the first.
pub const BROKEN_TWICE: &str = "\
1 0 too long, and no head: 5461*edge 00 00 00 00 00
1 8 length 3 and kind 3: one 03 00 03 00
1 8 past the end and a second head: one 09 00 01 00 01 00 00 00
1 12296 a 1,025th edge that is cut short: one 1024*edge 0c 00 02
2 0 kind 3 first and no location: 08 00 03 00 00 00 00 00
2 0 kind 3 first and 9 bytes: 09 00 03 00 01 00 00 00 00
2 8 kind 3 and no shape of an edge: one 05 00 03 00 00
2 8 a second head with its spare byte: one 08 00 01 00 01 00 00 01
2 12296 a 1,025th edge with label 32: one 1024*edge 0c 00 02 00 00 00 00 00 20 00 00 00
2 12296 a 1,025th edge of 13 bytes: one 1024*edge 0d 00 02 00 00 00 00 00 00 00 00 00 00
3 0 the head's spare byte and no location: 08 00 01 00 00 00 00 01
3 8 an edge's spare byte and label 32: one 0c 00 02 00 00 00 00 00 20 00 00 01
3 8 five atoms in 12 bytes: three 0c 00 02 00 00 00 00 00 00 00 05 00
3 8 five atoms and a spare byte of the last: three 34 00 02 00 00 00 00 00 00 00 05 00 4*atom 00 00 00 01 00 00 00 00
3 8 comparison 4, and a spare byte of the next atom: three 1c 00 02 00 00 00 00 00 00 00 02 00 00 04 00 00 00 00 00 00 00 00 01 00 00 00 00 00
4 8 label 32 and from a missing location: three 0c 00 02 00 03 00 00 00 20 00 00 00
4 8 a missing clock, and comparison 4 in the next atom: three 1c 00 02 00 00 00 00 00 00 00 02 00 02 00 00 00 00 00 00 00 00 04 00 00 00 00 00 00
4 8 constant 100,001 on a missing clock: three 14 00 02 00 00 00 00 00 00 00 01 00 02 00 00 00 a1 86 01 00
5 20 to a missing location, from a lower one: three 0c 00 02 00 01 00 00 00 00 00 00 00 0c 00 02 00 00 00 03 00 00 00 00 00
5 20 a missing clock's reset, from a lower location: three 0c 00 02 00 01 00 00 00 00 00 00 00 0c 00 02 00 00 00 00 00 00 04 00 00
4 0 no location, then a cut record: 08 00 01 00 00 00 00 00 0c 00
3 0 the head's spare byte, then a second head: 08 00 01 00 01 00 00 01 one
4 8 label 32, then a second head: one 0c 00 02 00 00 00 00 00 20 00 00 00 one
5 8 a missing target, then label 32: three 0c 00 02 00 00 00 03 00 00 00 00 00 0c 00 02 00 00 00 00 00 20 00 00 00
6 20 a lower location, then a cut record: three 0c 00 02 00 01 00 00 00 00 00 00 00 edge 0c";

// Files at the bounds.
pub const ACCEPTED: &str = "\
0 0 a head alone: one
0 1 256 locations: 08 00 01 00 00 01 00 00 0c 00 02 00 ff 00 ff 00 00 00 00 00
0 1 4 clocks, and each is reset: 08 00 01 00 01 00 04 00 0c 00 02 00 00 00 00 00 01 0f 00 00
0 1024 1,024 edges: one 1024*edge
0 1 label 31: one 0c 00 02 00 00 00 00 00 1f 00 00 00
0 1 comparison 3: three 14 00 02 00 00 00 00 00 02 00 01 00 00 03 00 00 00 00 00 00
0 1 constant 100,000: three 14 00 02 00 00 00 00 00 03 00 01 00 00 00 00 00 a0 86 01 00
0 1 four atoms: three 2c 00 02 00 00 00 00 00 04 00 04 00 4*atom
0 1 an atom on the last of 2 clocks: three 14 00 02 00 00 00 00 00 05 00 01 00 01 00 00 00 00 00 00 00
0 1 an atom on the last of 4 clocks: 08 00 01 00 01 00 04 00 14 00 02 00 00 00 00 00 06 00 01 00 03 00 00 00 00 00 00 00
0 1 each reset of 2 clocks: three 0c 00 02 00 00 00 02 00 07 03 00 00
0 3 two edges from the last location: three edge 0c 00 02 00 02 00 00 00 01 00 00 00 0c 00 02 00 02 00 02 00 02 00 00 00";
