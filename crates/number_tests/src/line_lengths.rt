use line_format::line_len;

#[test]
fn counts_the_bytes_before_the_first_line_feed(rt: HostRuntime) {
    assert_eq!(rt; line_len(b"book 1\nend\n"), Some(6));
    assert_eq!(rt; line_len(b"\nend\n"), Some(0));
    assert_eq!(rt; line_len(b"end"), None);
    assert_eq!(rt; line_len(b""), None);
}
