//! Words packed by hand.

use control_word::{Control, finish_amount, pack, unpack, value_word, word_value};
use effect_term::{Outcome, Value};

#[test]
fn a_word_is_the_sum_of_its_fields(rt: HostRuntime) {
    let masked_once = Control {
        count: 1,
        depth: 1,
        phase: 0,
        kind: 0,
        cancel: false,
        waited: false,
    };
    assert_eq!(rt; pack(masked_once), 1_099_511_627_777);
    assert_eq!(rt; unpack(1_099_511_627_777), masked_once);
}

#[test]
fn an_end_is_told_by_two_words(rt: HostRuntime) {
    let minus_one = Value::from_i32(-1);
    let amount = finish_amount(false, Outcome::Succeeded(minus_one));
    assert_eq!(rt; 0 + amount, 0x6_0000_0000_0001);
    assert_eq!(rt; value_word(minus_one), 0x7fff_ffff_ffff_ffff);
}

#[test]
fn the_highest_bit_of_a_word_is_no_values(rt: HostRuntime) {
    assert_eq!(rt; word_value(0x7fff_ffff_ffff_ffff), Value::from_i32(-1));
    assert_eq!(rt; word_value(0xffff_ffff_ffff_ffff), Value::from_i32(-1));
    assert_eq!(rt; word_value(0x8000_0000_0000_0005), Value::from_i32(5));
    assert_eq!(rt; word_value(0x8000_0000_0000_0000), Value::ZERO);
    assert_eq!(rt;
        word_value(0x4000_0000_0000_0000).get(),
        -4_611_686_018_427_387_904
    );
}
