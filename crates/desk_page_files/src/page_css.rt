//! The file `page/page.css`, as `scripts/docs/page-files --write` makes it.

/// The file `page/page.css`.
pub const PAGE_CSS: &str = "\
:root {
  color-scheme: light;
  --back: #f3f5f8; --panel: #ffffff; --line: #d5dbe3; --text: #17202b; --faint: #55616f;
  --main: #1d4ed8; --on-main: #ffffff; --focus: #b45309; --bad: #b42318; --bad-back: #fdecea; --new: #fff3cd;
  --free: #166534; --free-back: #dcfce7; --sent: #92400e; --sent-back: #fef3c7; --route: #1e40af; --route-back: #dbe\
afe;
  --scene: #6b21a8; --scene-back: #f3e8ff; --move: #155e75; --move-back: #cffafe; --off: #475467; --off-back: #e9edf\
2;
}
:root.dark {
  color-scheme: dark;
  --back: #0d131b; --panel: #151d28; --line: #2c3846; --text: #e6ebf2; --faint: #9aa8b8;
  --main: #2f60e0; --on-main: #ffffff; --focus: #fbbf24; --bad: #ff9a8f; --bad-back: #3a1715; --new: #3b3210;
  --free: #86efac; --free-back: #12351f; --sent: #fcd34d; --sent-back: #3a2a08; --route: #93c5fd; --route-back: #142\
a4d;
  --scene: #d8b4fe; --scene-back: #2f1a46; --move: #67e8f9; --move-back: #0b333c; --off: #aab6c4; --off-back: #27313\
d;
}
* { box-sizing: border-box; }
[hidden] { display: none !important; }
body { margin: 0; height: 100vh; display: flex; flex-direction: column; background: var(--back); color: var(--text);
  font: 14px/1.4 system-ui, \"Segoe UI\", \"DejaVu Sans\", sans-serif; font-variant-numeric: tabular-nums; }
header { display: flex; align-items: center; gap: 18px; padding: 8px 16px; background: var(--panel); border-bottom: \
1px solid var(--line); }
h1 { font-size: 17px; margin: 0; } h1 span { font-weight: 400; color: var(--faint); margin-left: 6px; }
h2 { font-size: 15px; margin: 0; }
header p { margin: 0; }
.state { padding: 3px 10px 3px 8px; border-radius: 12px; font-weight: 600; white-space: nowrap; }
.state::before { content: \"\"; display: inline-block; width: 9px; height: 9px; border-radius: 50%; background: curr\
entColor; margin-right: 7px; }
.state.live { color: var(--free); background: var(--free-back); }
.state.wait { color: var(--sent); background: var(--sent-back); }
.state.lost { color: var(--on-main); background: #b42318; }
header dl { display: flex; gap: 20px; margin: 0 auto 0 0; }
header dl div { display: flex; gap: 6px; align-items: baseline; white-space: nowrap; }
dt { color: var(--faint); } dd { margin: 0; font-weight: 650; }
.tell.some dd { color: var(--bad); }
.node { display: inline-block; padding: 0 6px; border-radius: 4px; margin-left: 3px; color: var(--free); background\
: var(--free-back); }
.node.down { color: var(--bad); background: var(--bad-back); text-decoration: line-through; }
.node.late { color: var(--sent); background: var(--sent-back); }
#clock { color: var(--faint); white-space: nowrap; }
#alert, .alert { margin: 0; padding: 9px 16px; background: #b42318; color: #fff; font-weight: 600; }
main { flex: 1; min-height: 0; display: flex; gap: 12px; padding: 12px 16px; }
body.lost main { filter: grayscale(1); opacity: .72; }
section { background: var(--panel); border: 1px solid var(--line); border-radius: 8px; display: flex; flex-direction\
: column; min-height: 0; }
#incidents { flex: 1; min-width: 0; }
aside { width: 430px; display: flex; flex-direction: column; gap: 12px; min-height: 0; }
aside > section:first-child { flex: 3; } .sent { flex: 1.4; }
.bar { display: flex; gap: 14px; align-items: center; padding: 8px 12px; border-bottom: 1px solid var(--line); }
.bar h2 { margin-right: auto; }
.scroll { overflow: auto; flex: 1; }
input, select, button, textarea { font: inherit; color: inherit; }
input[type=search], input[type=text], select, textarea { background: var(--back); border: 1px solid var(--line); bor\
der-radius: 5px; padding: 4px 8px; }
button { background: var(--back); border: 1px solid var(--line); border-radius: 5px; padding: 4px 10px; cursor: poin\
ter; white-space: nowrap; }
button:hover { border-color: var(--faint); }
button.main { background: var(--main); border-color: var(--main); color: var(--on-main); font-weight: 600; }
button.main kbd { color: inherit; border-color: #ffffff80; }
kbd { font: 11px/1.2 ui-monospace, \"DejaVu Sans Mono\", monospace; border: 1px solid var(--line); border-bottom-wid\
th: 2px; border-radius: 3px; padding: 0 4px; color: var(--faint); }
:focus-visible { outline: 3px solid var(--focus); outline-offset: -1px; }
.skip { position: absolute; left: -999px; } .skip:focus { left: 8px; top: 8px; background: var(--panel); padding: 8p\
x; z-index: 9; }
table { border-collapse: collapse; width: 100%; }
th { position: sticky; top: 0; background: var(--panel); text-align: left; color: var(--faint); font-weight: 600; fo\
nt-size: 12px; padding: 5px 8px; box-shadow: inset 0 -1px var(--line); z-index: 1; white-space: nowrap; }
th button { all: unset; cursor: pointer; } th button:focus-visible { outline: 3px solid var(--focus); }
th[aria-sort=ascending] button::after { content: \" \\25B2\"; font-size: 9px; } th[aria-sort=descending] button::aft\
er { content: \" \\25BC\"; font-size: 9px; }
td { padding: 6px 8px; border-bottom: 1px solid var(--line); vertical-align: top; }
tbody tr:hover { background: color-mix(in srgb, var(--main) 6%, transparent); }
tr.fresh td { background: var(--new); }
tr.pending { opacity: .6; }
#incident-table { table-layout: fixed; min-width: 984px; }
#incident-table th:nth-child(1) { width: 46px; } #incident-table th:nth-child(2) { width: 86px; } #incident-table th\
:nth-child(3) { width: 128px; }
#incident-table th:nth-child(6) { width: 46px; } #incident-table th:nth-child(7) { width: 52px; } #incident-table th\
:nth-child(9) { width: 212px; }
#incident-table th:nth-child(4) { width: 16%; } #incident-table th:nth-child(5) { width: 19%; }
td.no { color: var(--faint); white-space: nowrap; }
td a { color: inherit; } td a:visited { color: inherit; }
td.age { white-space: nowrap; font-weight: 600; } tr.bare td.age { color: var(--bad); }
td.kind { font-weight: 650; overflow-wrap: anywhere; }
td.note { color: var(--faint); }
.said { unicode-bidi: isolate; overflow-wrap: anywhere; }
.chip { display: inline-block; border-radius: 10px; padding: 0 7px; margin: 0 3px 3px 0; font-weight: 600; white-spa\
ce: nowrap; border: 1px solid transparent; }
.chip small { font-weight: 400; }
.available { color: var(--free); background: var(--free-back); } .dispatched { color: var(--sent); background: var(-\
-sent-back); }
.en_route { color: var(--route); background: var(--route-back); } .on_scene { color: var(--scene); background: var(-\
-scene-back); }
.transporting { color: var(--move); background: var(--move-back); } .at_facility { color: var(--off); background: va\
r(--off-back); border-color: var(--move); }
.out_of_service { color: var(--off); background: var(--off-back); text-decoration: line-through; }
.stand { background: none; border: 1px dashed var(--faint); color: var(--faint); }
.warn { color: var(--bad); font-weight: 600; white-space: nowrap; }
.acts { white-space: nowrap; text-align: right; } .acts button { padding: 1px 6px; margin-left: 2px; font-size: 12.5\
px; color: var(--faint); }
tr:hover .acts button, tr:focus .acts button, tr:focus-within .acts button { color: var(--text); border-color: var(-\
-faint); }
#unit-table td { padding: 4px 6px 4px 8px; } #unit-table td.at { max-width: 132px; overflow: hidden; text-overflow: \
ellipsis; white-space: nowrap; } #unit-table td:first-child { font-weight: 650; }
#unit-table select { padding: 1px 2px; font-size: 13px; margin: 0; }
.none { color: var(--faint); padding: 20px; text-align: center; margin: 0; }
.keys { margin: 0; padding: 6px 12px; color: var(--faint); border-top: 1px solid var(--line); font-size: 12px; }
.faint { color: var(--faint); font-size: 12px; }
#sent { margin: 0; padding: 4px 12px; list-style: none; overflow: auto; flex: 1; }
#sent li { padding: 3px 0; border-bottom: 1px solid var(--line); }
#sent li.ok::before { content: \"\\2713  \"; color: var(--free); font-weight: 700; }
#sent li.no::before { content: \"\\2717  \"; color: var(--bad); font-weight: 700; } #sent li.no { color: var(--bad)\
; }
#sent li.wait::before { content: \"\\2026  \"; color: var(--sent); font-weight: 700; }
dialog { border: 1px solid var(--line); border-radius: 10px; background: var(--panel); color: var(--text); width: 46\
0px; padding: 18px; }
dialog::backdrop { background: #00000066; }
dialog label { display: block; margin: 10px 0; } dialog input[type=text], dialog select, dialog textarea { width: 10\
0%; margin-top: 3px; padding: 6px 8px; }
.buttons { display: flex; justify-content: flex-end; gap: 8px; margin: 14px 0 0; }
.hidden { position: absolute; width: 1px; height: 1px; overflow: hidden; clip-path: inset(50%); }
@media (max-width: 1080px) { td.kind { white-space: normal; } #incident-table th:nth-child(7), td.links { display: n\
one; } body { height: auto; } main { flex-direction: column; } aside { width: auto; } header { flex-wrap: wrap; } }
header nav { display: flex; gap: 6px; }
header nav a { padding: 3px 10px; border-radius: 5px; border: 1px solid var(--line); color: var(--text); text-decora\
tion: none; }
header nav a[aria-current] { background: var(--main); border-color: var(--main); color: var(--on-main); font-weight\
: 600; }
#closed, #record { flex: 1; min-width: 0; }
#closed-table { table-layout: fixed; min-width: 940px; }
#closed-table th:nth-child(1) { width: 46px; } #closed-table th:nth-child(2) { width: 150px; } #closed-table th:nth-\
child(3) { width: 128px; }
#closed-table th:nth-child(5) { width: 118px; } #closed-table th:nth-child(6) { width: 46px; } #closed-table th:nth-\
child(7) { width: 60px; } #closed-table th:nth-child(9) { width: 170px; }
#record-values { display: grid; grid-template-columns: 130px 1fr; gap: 8px 14px; margin: 14px; }
#record-values dd { font-weight: 400; overflow-wrap: anywhere; }
#record-values dd ul { margin: 0; padding-left: 18px; }
#record a, #record a:visited { color: var(--route); }
#record-acts { margin: 14px; display: flex; flex-wrap: wrap; gap: 8px; justify-content: flex-start; }
#menu ul { list-style: none; margin: 12px 0; padding: 0; display: grid; gap: 6px; }
#menu ul button { width: 100%; text-align: left; }
#menu kbd { float: right; margin-left: 24px; }
";
