use crate::{Configs, ParamFault, decode_params, lower};
use host_port::Limits;
use std::test::Fail;
use wasm_ops::Num;

#[test]
fn decodes_parameters(rt: HostRuntime) -> Result<(), Fail> {
    let mut text = [0u8; 17];
    text[0] = 0x7F;
    text[1] = 5;
    let params = decode_params(rt.alloc(), &text)?;
    let slice = params.as_slice();
    assert_eq!(rt; slice.len(), 1);
    assert_eq!(rt; slice[0].num(), Num::I32);
    assert_eq!(rt; slice[0].value(), 5);
    assert!(rt;
        matches!(
            decode_params(rt.alloc(), &text[..16]),
            Err(ParamFault::BadParams)
        )
    );
    text[5] = 1;
    assert!(rt; matches!(decode_params(rt.alloc(), &text), Err(ParamFault::BadParams)));
    assert!(rt; decode_params(rt.alloc(), &[])?.is_empty());
    Ok(())
}

#[test]
fn numbers_configs(rt: HostRuntime) -> Result<(), Fail> {
    let mut configs = Configs::new(rt.alloc());
    let own = Limits::new(64, 1000, 100);
    assert_eq!(rt; configs.create(own)?, 0);
    assert!(rt; configs.set(0, lower(Limits::new(2, 5000, 100), own)));
    let set = configs.get(0).ok_or("no config")?;
    assert_eq!(rt; set.pages(), 2);
    assert_eq!(rt; set.fuel(), 1000);
    assert!(rt; configs.remove(0));
    assert!(rt; !configs.set(0, own));
    assert!(rt; configs.get(0).is_none());
    assert_eq!(rt; configs.create(own)?, 1);
    Ok(())
}
