// A text of bounded length.
use std::array;
use text::Text;

#[test]
fn a_text_grows_at_its_end(rt: HostRuntime) {
    let mut text = Text::new();
    assert_eq!(rt; text.as_bytes(), b"".as_slice());
    text.push(b'n');
    text.push_number(0u32);
    text.push_all(b", ");
    text.push_number(10u32);
    text.push_number(4_294_967_295u32);
    assert_eq!(rt; text.as_bytes(), b"n0, 104294967295".as_slice());
}

#[test]
fn what_does_not_fit_is_cut_off(rt: HostRuntime) {
    let mut text = Text::new();
    for _ in 0..31 {
        text.push_all(b"0123456789");
    }
    text.push_all(b"012345678");
    text.push_number(98u32);
    text.push(b'x');
    text.push_all(b"yz");
    let expected: [u8; 320] = array::from_fn(|i| b'0' + (i % 10) as u8);
    assert_eq!(rt; text.as_bytes(), expected.as_slice());
}
