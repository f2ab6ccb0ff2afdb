use crate::same::same;
use rk_glob::{laws, matches};

#[test]
fn fits_the_whole_text(rt: HostRuntime) {
    let rows: [(&[u8], &[u8], bool); 16] = [
        (b"a*b*", b"ab", true),
        (b"a*b*", b"axb", true),
        (b"a*b*", b"ba", false),
        (b"*", b"", true),
        (b"*", b"anything", true),
        (b"", b"", true),
        (b"", b"a", false),
        (b"user", b"user", true),
        (b"user", b"users", false),
        (b"debug:*", b"debug:", true),
        (b"debug:*", b"debug", false),
        (b"*.conf", b"a.conf.conf", true),
        (b"ab*ba", b"aba", false),
        (b"**a**", b"xax", true),
        (b"*aab*c*", b"aaaabaac", true),
        (b"*ab*ab*", b"abba", false),
    ];
    for (pattern, text, want) in rows {
        same(
            &rt,
            (pattern, text, matches(pattern, text)),
            (pattern, text, want),
        );
    }
    laws();
}
