//! The latest request of each client.

use super::assert_run;

const OF_TWO_CLIENTS: &str = r#"
- latest of 7 gives none
- "number":3,"do":"open","kind":"fire","where":"12 Elm St" gives
  {"incident":"urn:emergency:uid:incidentid:000000000001:desk.example","number":3,"ok":"opened","place":1,"session":7}
- latest of 7 gives
  1 {"incident":"urn:emergency:uid:incidentid:000000000001:desk.example","number":3,"ok":"opened","place":1,"session":7}
- "session":8,"number":1,"do":"clear","incident":"urn:emergency:uid:incidentid:000000000001:desk.example" gives
  {"number":1,"ok":"cleared","place":2,"session":8}
- "number":5,"do":"clear","incident":"urn:emergency:uid:incidentid:000000000001:desk.example" gives
  {"number":5,"place":3,"refusal":11,"session":7}
- latest of 7 gives 3 {"number":5,"place":3,"refusal":11,"session":7}
- latest of 8 gives 2 {"number":1,"ok":"cleared","place":2,"session":8}
- latest of 9 gives none
"#;

#[test]
fn each_client_has_its_latest_reply(rt: HostRuntime) {
    assert_run(&rt, rt.alloc(), OF_TWO_CLIENTS);
}
