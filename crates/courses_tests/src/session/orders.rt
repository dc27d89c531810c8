// Of several rules the least is told.
use crate::session::rows::check_rows;
use std::test::Fail;

// Two rules broken, of which none that lies between them can be broken, too.
const PAIRS: &str = r#"
other SAID=VERB/voided OBJECT=REFERENCE ACTOR={"mbox":"mailto:a@b"} => C2
passed ACTOR={"mbox":"mailto:a@b"} REGISTRATION=SESSION => C3
passed REGISTRATION=SESSION phase=Abandoned => C4
passed REGISTRATION=SESSION phase=Terminated => C4
passed REGISTRATION=SESSION phase=Fetched => C4
other phase=Abandoned => C5
other phase=Terminated => C6
other phase=Fetched => C7
other OBJECT={"id":"PUBLISHER"} => C8
passed OBJECT={"id":"PUBLISHER"} EXTENSIONS={} => C9
passed EXTENSIONS={} GROUPING=[] => C10
initialized GROUPING=[] phase=Initialized => C11
passed GROUPING=[] mode=Browse => C11
terminated GROUPING=[] MORE=,"EXTENSION/masteryscore":0.7 => C11
initialized phase=Initialized MORE=,"EXTENSION/masteryscore":0.7 => C12
passed mode=Review CATEGORY=[CMI5] => C13
passed CATEGORY=[CMI5] RESULT={"success":false} => C14
completed RESULT={"completion":false} stands=completed => C15
passed RESULT={"success":false} stands=passed => C15
failed RESULT={"score":{"scaled":1},"success":true} => C15
completed stands=completed MORE=,"EXTENSION/masteryscore":0.7 => C16
passed stands=passed SCALED=0.7 => C17
passed SCALED=0.7 MORE=,"EXTENSION/masteryscore":0.7 => C18
failed SCALED=0.8 MORE=,"EXTENSION/masteryscore":0.7 => C18
terminated RESULT={} MORE=,"EXTENSION/masteryscore":0.7 => C19
"#;

#[test]
fn the_lesser_of_two_rules_is_told(rt: HostRuntime) -> Result<(), Fail> {
    check_rows(rt.alloc(), PAIRS)
}

// All rules broken that one statement can break at once, and then one less in each row.
const ALL: &str = r#"
passed ACTOR={"mbox":"mailto:a@b"} REGISTRATION=SESSION phase=Terminated OBJECT={"id":"http://a/1"} GROUPING=[] EXTENSIONS={"EXTENSION/masteryscore":0.7} mode=Browse CATEGORY=[CMI5] RESULT={"score":{"scaled":0.1}} stands=passed => C3
passed REGISTRATION=SESSION phase=Terminated OBJECT={"id":"http://a/1"} GROUPING=[] EXTENSIONS={"EXTENSION/masteryscore":0.7} mode=Browse CATEGORY=[CMI5] RESULT={"score":{"scaled":0.1}} stands=passed => C4
passed phase=Terminated OBJECT={"id":"http://a/1"} GROUPING=[] EXTENSIONS={"EXTENSION/masteryscore":0.7} mode=Browse CATEGORY=[CMI5] RESULT={"score":{"scaled":0.1}} stands=passed => C6
passed OBJECT={"id":"http://a/1"} GROUPING=[] EXTENSIONS={"EXTENSION/masteryscore":0.7} mode=Browse CATEGORY=[CMI5] RESULT={"score":{"scaled":0.1}} stands=passed => C9
passed GROUPING=[] EXTENSIONS={"EXTENSION/masteryscore":0.7} mode=Browse CATEGORY=[CMI5] RESULT={"score":{"scaled":0.1}} stands=passed => C10
passed GROUPING=[] MORE=,"EXTENSION/masteryscore":0.7 mode=Browse CATEGORY=[CMI5] RESULT={"score":{"scaled":0.1}} stands=passed => C11
passed MORE=,"EXTENSION/masteryscore":0.7 mode=Browse CATEGORY=[CMI5] RESULT={"score":{"scaled":0.1}} stands=passed => C13
passed MORE=,"EXTENSION/masteryscore":0.7 CATEGORY=[CMI5] RESULT={"score":{"scaled":0.1}} stands=passed => C14
passed MORE=,"EXTENSION/masteryscore":0.7 RESULT={"score":{"scaled":0.1}} stands=passed => C15
passed MORE=,"EXTENSION/masteryscore":0.7 SCALED=0.1 stands=passed => C17
passed MORE=,"EXTENSION/masteryscore":0.7 SCALED=0.1 => C18
passed MORE=,"EXTENSION/masteryscore":0.7 => C19
"#;

#[test]
fn the_least_of_all_rules_is_told(rt: HostRuntime) -> Result<(), Fail> {
    check_rows(rt.alloc(), ALL)
}
