//! The official cases on which the rules by default, which have numbers by pairs (LB25), say something
//! else than the official file, which has numbers by the expression of example 7 of UAX #14.
//!
//! The cases are of LineBreakTest-15.0.0.txt, © 2022 Unicode®, Inc. The licence is `LICENSE-UNICODE`
//! at the top of the repository.

/// The part of LB25 by which no line may end where the official file lets one; the case as there;
/// and the case by pairs.
#[rattlefmt::skip]
pub const BY_PAIRS: &[(&str, &str, &str)] = &[
    ("CL × PO", "}÷%÷", "}%÷"),
    ("CL × PO", "}\u{308}÷%÷", "}\u{308}%÷"),
    ("CP × PO", ")÷%÷", ")%÷"),
    ("CP × PO", ")\u{308}÷%÷", ")\u{308}%÷"),
    ("CL × PR", "}÷$÷", "}$÷"),
    ("CL × PR", "}\u{308}÷$÷", "}\u{308}$÷"),
    ("CP × PR", ")÷$÷", ")$÷"),
    ("CP × PR", ")\u{308}÷$÷", ")\u{308}$÷"),
    ("PO × OP", "%÷\u{2329}÷", "%\u{2329}÷"),
    ("PO × OP", "%\u{308}÷\u{2329}÷", "%\u{308}\u{2329}÷"),
    ("PO × OP", "%÷(÷", "%(÷"),
    ("PO × OP", "%\u{308}÷(÷", "%\u{308}(÷"),
    ("PR × OP", "$÷\u{2329}÷", "$\u{2329}÷"),
    ("PR × OP", "$\u{308}÷\u{2329}÷", "$\u{308}\u{2329}÷"),
    ("PR × OP", "$÷(÷", "$(÷"),
    ("PR × OP", "$\u{308}÷(÷", "$\u{308}(÷"),
    ("PR × OP", "code\\÷(s\\)÷", "code\\(s\\)÷"),
    ("PR × OP", "code\\÷{s\\}÷", "code\\{s\\}÷"),
    ("IS × NU", ",÷0÷", ",0÷"),
    ("IS × NU", ",\u{308}÷0÷", ",\u{308}0÷"),
    ("IS × NU", "equals .÷35 ÷cents÷", "equals .35 ÷cents÷"),
    ("IS × NU", "a.÷2 ÷", "a.2 ÷"),
    ("IS × NU", "a.÷2 ÷\u{915}÷", "a.2 ÷\u{915}÷"),
    ("IS × NU", "a.÷2 ÷本÷", "a.2 ÷本÷"),
    ("IS × NU", "a.÷2\u{3000}÷本÷", "a.2\u{3000}÷本÷"),
    ("IS × NU", "a.÷2\u{3000}÷ま÷", "a.2\u{3000}÷ま÷"),
    ("IS × NU", "a.÷2\u{3000}÷3÷", "a.2\u{3000}÷3÷"),
    ("IS × NU", "A.÷1 ÷못÷", "A.1 ÷못÷"),
    ("IS × NU", "봤÷어. ÷A.÷2 ÷볼÷", "봤÷어. ÷A.2 ÷볼÷"),
    ("IS × NU", "봐÷요. ÷A.÷3 ÷못÷", "봐÷요. ÷A.3 ÷못÷"),
    ("IS × NU", "요. ÷A.÷4 ÷못÷", "요. ÷A.4 ÷못÷"),
    ("IS × NU", "a.÷2\u{3000}÷「÷", "a.2\u{3000}÷「÷"),
    ("SY × NU", "/÷0÷", "/0÷"),
    ("SY × NU", "/\u{308}÷0÷", "/\u{308}0÷"),
];
