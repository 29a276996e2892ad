//! The texts of made pairs of the smallest widths, as a program outside wrote them from their description, so that a
//! mistake of the generator is not repeated in what is expected.

use bb_make::texts;
use std::test::Fail;

const SPEC_1: &str = "\
module add(a0,b0,ci,s0,co);
input a0,b0,ci;
output s0,co;
fa u0(a0,b0,ci,s0,co);
endmodule
module fa(a,b,c,s,o);
input a,b,c;
output s,o;
xor(s,a,b,c);
assign o = a & b | a & c | b & c;
endmodule
";

const IMP_1: &str = "\
module add(a0,b0,ci,s0,co);
input a0,b0,ci;
output s0,co;
hole u0(a0,b0,ci,s0,co);
endmodule
module fa(a,b,c,s,o);
input a,b,c;
output s,o;
xor(s,a,b,c);
assign o = a & b | a & c | b & c;
endmodule
module hole(a,b,c,s,o);
input a,b,c;
output s,o;
endmodule
";

const SPEC_2: &str = "\
module add(a1,b1,a0,b0,ci,s1,s0,co);
input a1,b1,a0,b0,ci;
output s1,s0,co;
fa u0(a0,b0,ci,s0,c1);
fa u1(a1,b1,c1,s1,co);
endmodule
module fa(a,b,c,s,o);
input a,b,c;
output s,o;
xor(s,a,b,c);
assign o = a & b | a & c | b & c;
endmodule
";

const IMP_2: &str = "\
module add(a1,b1,a0,b0,ci,s1,s0,co);
input a1,b1,a0,b0,ci;
output s1,s0,co;
fa u0(a0,b0,ci,s0,c1);
hole u1(a1,b1,c1,s1,co);
endmodule
module fa(a,b,c,s,o);
input a,b,c;
output s,o;
xor(s,a,b,c);
assign o = a & b | a & c | b & c;
endmodule
module hole(a,b,c,s,o);
input a,b,c;
output s,o;
endmodule
";

const SPEC_3: &str = "\
module add(a2,b2,a1,b1,a0,b0,ci,s2,s1,s0,co);
input a2,b2,a1,b1,a0,b0,ci;
output s2,s1,s0,co;
fa u0(a0,b0,ci,s0,c1);
fa u1(a1,b1,c1,s1,c2);
fa u2(a2,b2,c2,s2,co);
endmodule
module fa(a,b,c,s,o);
input a,b,c;
output s,o;
xor(s,a,b,c);
assign o = a & b | a & c | b & c;
endmodule
";

const IMP_3: &str = "\
module add(a2,b2,a1,b1,a0,b0,ci,s2,s1,s0,co);
input a2,b2,a1,b1,a0,b0,ci;
output s2,s1,s0,co;
fa u0(a0,b0,ci,s0,c1);
hole u1(a1,b1,c1,s1,c2);
fa u2(a2,b2,c2,s2,co);
endmodule
module fa(a,b,c,s,o);
input a,b,c;
output s,o;
xor(s,a,b,c);
assign o = a & b | a & c | b & c;
endmodule
module hole(a,b,c,s,o);
input a,b,c;
output s,o;
endmodule
";

#[test]
fn made_texts_are_as_described(rt: HostRuntime) -> Result<(), Fail> {
    for (n, spec, imp) in [(1, SPEC_1, IMP_1), (2, SPEC_2, IMP_2), (3, SPEC_3, IMP_3)] {
        assert!(rt; 1 <= n && n <= 256);
        let (full, holed) = texts(rt.alloc(), n)?;
        assert_eq!(rt; full.as_slice(), spec.as_bytes());
        assert_eq!(rt; holed.as_slice(), imp.as_bytes());
    }
    Ok(())
}
