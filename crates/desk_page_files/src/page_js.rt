//! The file `page/page.js`, as `scripts/docs/page-files --write` makes it.

/// The file `page/page.js`.
pub const PAGE_JS: &str = "\
\"use strict\";
// The live page of a desk: shows the board that GET /board tells, and sends documents by POST /command. Every text \
that
// comes from the desk goes into the page as a text node.

const $ = (id) => document.getElementById(id);
const STATUS = { available: \"available\", dispatched: \"dispatched\", en_route: \"en route\", on_scene: \"on scene\
\",
  transporting: \"transporting\", at_facility: \"at facility\", out_of_service: \"out of service\" };
const ORDER = Object.keys(STATUS);
const REFUSED = { 1: \"no JSON object\", 2: \"too long\", 3: \"missing: {member}\", 4: \"wrong kind: {member}\",
  5: \"out of range: {member}\", 6: \"unknown verb\", 7: \"bad identifier: {member}\", 8: \"bad time\", 9: \"too lar\
ge\",
  10: \"no such incident\", 11: \"the incident is cleared\", 12: \"the incident was merged into {incident}\",
  13: \"an incident has that identifier\", 14: \"only the desk gives identifiers of its domain\", 15: \"one and the \
same incident\",
  16: \"an incident has that call already\", 17: \"the call is not the incident's\", 18: \"they are linked already\"\
,
  19: \"they are not linked\", 20: \"no such unit is signed on\", 21: \"that unit is signed on already\",
  22: \"the unit is out of service\", 23: \"the unit is committed to {incident}\", 24: \"the unit is at no incident\
\",
  25: \"the unit does not go from its status to that one\", 26: \"units are still at the incident\",
  27: \"more than 16 calls\", 28: \"the incident is open\", 29: \"it is the incident's last call\",
  31: \"a later command of this page was done\", 33: \"the log is full\", 35: \"done; its reply is no longer kept\",
  36: \"the unit stands by for {incident}\", 37: \"the unit stands by for no incident\" };

// -- what the desk has told ---------------------------------------------------------------------------------------\
---

let board = { place: 0, incidents: [], units: [], next: 0 };
let origin = \"\";            // which run of the page's server told it
let offset = 0;             // the server's clock less this one, in milliseconds
let heard = 0;              // when the server was last heard, by this clock
let lost = \"\";              // why the board is not live
let sort = { by: \"opened\", down: false };

const short = (id) => { const u = id.split(\":\")[4] || id; return /^0{2,}\\d+$/.test(u) ? String(Number(u)) : u; };

async function follow() {
  let pause = 250;
  for (;;) {
    if (document.hidden) await shown();
    try {
      const r = await fetch(`/board?after=${board.place}&of=${origin}`, { cache: \"no-store\", signal: AbortSignal.t\
imeout(8000) });
      if (r.status !== 200 && r.status !== 204) throw new Error(`the page's server answers ${r.status}`);
      note(r);
      if (r.status === 200) take(await r.json());
      pause = 250;
    } catch (e) {
      tell(e.name === \"TimeoutError\" ? \"the page's server is silent\" : \"the page's server is not there\");
      await sleep(pause);
      pause = Math.min(2 * pause, 2000);
    }
  }
}

const sleep = (ms) => new Promise((done) => setTimeout(done, ms));
const shown = () => new Promise((done) => document.addEventListener(\"visibilitychange\", done, { once: true }));

function note(r) {
  heard = Date.now();
  const date = Date.parse(r.headers.get(\"date\"));
  if (date) offset = date - heard;
  const run = r.headers.get(\"desk-of\") || \"\";
  if (run !== origin) { origin = run; board.place = 0; }
  nodes(r.headers.get(\"desk-nodes\") || \"\");
  tell(r.headers.get(\"desk-live\") === \"1\" ? \"\" : \"no node of the desk answers\");
}

function nodes(text) {
  const at = $(\"nodes\");
  at.replaceChildren();
  const places = text.split(\",\").filter(Boolean).map((t) => t.split(\"=\"));
  const top = Math.max(...places.map((p) => Number(p[1]) || 0), 0);
  for (const [node, place] of places) {
    const down = place === \"down\", late = !down && Number(place) + 50 < top;
    const dot = el(\"span\", `node ${down ? \"down\" : late ? \"late\" : \"\"}`, node);
    dot.title = down ? `node ${node} does not answer` : `node ${node} shows place ${place}`;
    dot.append(el(\"span\", \"hidden\", down ? \" down\" : late ? \" behind\" : \" up\"));
    at.append(dot);
  }
}

function tell(why) {
  lost = why;
  document.body.classList.toggle(\"lost\", !!why);
  const state = $(\"state\");
  const text = why ? \"Not connected\" : \"Live\";
  if (state.textContent !== text) state.textContent = text;
  state.className = `state ${why ? \"lost\" : \"live\"}`;
  alertLine();
}

function alertLine() {
  const at = $(\"alert\");
  at.hidden = !lost;
  if (!lost) return;
  const since = heard ? ` for ${span(Math.round((Date.now() - heard) / 1000))}` : \"\";
  const text = `Not connected${since}: ${lost}. This is the board at place ${board.place}, and not what holds now.`;
  if (at.textContent !== text) at.textContent = text;
}

// -- the tables ---------------------------------------------------------------------------------------------------\
---

function el(name, cls, text) {
  const e = document.createElement(name);
  if (cls) e.className = cls;
  if (text !== undefined) e.textContent = text;
  return e;
}
// What others wrote is shown without controls and marks of direction, and so that its direction turns nothing roun\
d that
// stands beside it: by an element, and by two marks of our own where there can be none.
const clean = (text) => text.replace(/[\\u0000-\\u001f\\u007f-\\u009f\\u061c\\u200e\\u200f\\u202a-\\u202e\\u2066-\\u\
2069]/g, \"\\ufffd\");
const said = (text) => el(\"span\", \"said\", clean(text));
const isolated = (text) => `\\u2068${clean(text)}\\u2069`;
const now = () => Math.floor((Date.now() + offset) / 1000);
function span(s) {
  if (s < 0) return \"0:00\";
  const h = Math.floor(s / 3600), m = Math.floor(s / 60) % 60, two = (n) => String(n).padStart(2, \"0\");
  return h >= 24 ? `${Math.floor(h / 24)} d ${h % 24} h` : h ? `${h}:${two(m)}:${two(s % 60)}` : `${m}:${two(s % 60)\
}`;
}

function take(told) {
  if (told.place < board.place) return;
  const before = new Map(board.incidents.map((i) => [i.incident, JSON.stringify(i)]));
  const first = board.place === 0;
  board = told;
  draw(first ? null : before);
}

function draw(before) {
  const status = new Map(board.units.map((u) => [u.unit, u.status]));
  const open = board.incidents.filter(passes);
  open.sort(order);
  const all = open.length;
  open.length = Math.min(all, 300);         // more rows than one can read would only slow the page down
  const body = $(\"incident-table\").tBodies[0];
  const rows = new Map([...body.rows].map((r) => [r.dataset.id, r]));
  let place = body.firstChild;
  for (const i of open) {
    const text = JSON.stringify([i, i.units.map((u) => status.get(u))]);
    let row = rows.get(i.incident);
    if (!row || row.dataset.text !== text) {
      const fresh = incidentRow(i, status, text);
      if (before && before.get(i.incident) !== JSON.stringify(i)) mark(fresh);
      if (row) {
        const had = row.contains(document.activeElement) ? [...row.querySelectorAll(\"button\")].indexOf(document.ac\
tiveElement) : -2;
        fresh.tabIndex = row.tabIndex;
        if (place === row) place = fresh;
        row.replaceWith(fresh);
        if (had > -2) (had < 0 ? fresh : fresh.querySelectorAll(\"button\")[had]).focus();
      }
      row = fresh;
    }
    rows.delete(i.incident);
    if (row !== place) body.insertBefore(row, place); else place = place.nextSibling;
  }
  for (const row of rows.values()) {
    if (row.contains(document.activeElement)) (row.nextSibling || row.previousSibling || $(\"incidents\")).focus();
    row.remove();
  }
  if (body.rows.length && ![...body.rows].some((r) => r.tabIndex === 0)) body.rows[0].tabIndex = 0;
  $(\"none\").hidden = open.length > 0;
  $(\"none\").textContent = board.incidents.length ? \"No open incident passes the filter.\" : \"No open incident.\"\
;
  $(\"past\").hidden = !board.next;
  $(\"past\").textContent = `More are open than the ${board.incidents.length} that are listed. One opened later tha\
n these is reached by its record alone, at this page's address with #incident= and its identifier.`;
  $(\"incidents-title\").textContent = `Open incidents (${open.length}${open.length < board.incidents.length ? ` of \
${board.incidents.length}` : \"\"}${board.next ? \", and more\" : \"\"})${open.length < all ? \": filter for the oth\
ers\" : \"\"}`;
  drawUnits();
  const bare = board.incidents.filter((i) => !i.units.length).length;
  $(\"count-open\").textContent = board.incidents.length;
  $(\"count-bare\").textContent = bare;
  $(\"count-bare\").parentNode.classList.toggle(\"some\", bare > 0);
  $(\"count-free\").textContent = board.units.filter((u) => u.status === \"available\").length;
  $(\"place\").textContent = board.place;
  ages();
}

// A row that has changed is marked for two to three seconds. The mark does not fade: as long as rows fade, a browse\
r
// draws each of them for every frame, which holds up the next board where many change.
function mark(row) {
  row.classList.add(\"fresh\");
  row.dataset.marked = performance.now();
}
function unmark() {
  for (const row of document.querySelectorAll(\"tr.fresh\"))
    if (performance.now() - row.dataset.marked > 2000) row.classList.remove(\"fresh\");
}

function passes(i) {
  if ($(\"bare\").checked && i.units.length) return false;
  const words = $(\"filter\").value.toLowerCase().split(/\\s+/).filter(Boolean);
  const text = [i.kind, i.where, i.note, short(i.incident), ...i.units, ...i.calls].join(\" \").toLowerCase();
  return words.every((w) => text.includes(w));
}
const KEYS = { number: (i) => short(i.incident).padStart(20, \"0\"), opened: (i) => i.opened, kind: (i) => i.kind.to\
LowerCase(),
  where: (i) => i.where.toLowerCase(), units: (i) => i.units.length };
function order(a, b) {
  const x = KEYS[sort.by](a), y = KEYS[sort.by](b);
  return (x < y ? -1 : x > y ? 1 : a.opened - b.opened) * (sort.down ? -1 : 1);
}

// A link to an incident's record, which has an address of its own.
function recordLink(id) {
  const a = el(\"a\", \"\", short(id));
  a.href = `#incident=${encodeURIComponent(id)}`;
  a.title = id;
  return a;
}
const linked = (ids) => ids.flatMap((id, k) => k ? [\", \", recordLink(id)] : [recordLink(id)]);

function incidentRow(i, status, text) {
  const row = el(\"tr\", i.units.length ? \"\" : \"bare\");
  row.dataset.id = i.incident;
  row.dataset.text = text;
  row.tabIndex = -1;
  const cell = (cls, ...parts) => { const td = el(\"td\", cls); td.append(...parts); row.append(td); return td; };
  cell(\"no\", recordLink(i.incident));
  const age = cell(\"age\", \"-\");
  age.dataset.since = i.opened;
  age.title = new Date(1000 * i.opened).toLocaleString();
  cell(\"kind\", said(i.kind));
  cell(\"where\", said(i.where));
  const units = cell(\"units\");
  for (const u of i.units) {
    const s = status.get(u) || \"dispatched\";
    const chip = el(\"span\", `chip ${s}`, u);
    chip.append(el(\"small\", \"\", ` ${STATUS[s]}`));
    units.append(chip);
  }
  for (const u of i.stand_by || []) {
    const chip = el(\"span\", \"chip stand\", u);
    chip.append(el(\"small\", \"\", \" stands by\"));
    units.append(chip);
  }
  if (!i.units.length) units.prepend(el(\"span\", \"warn\", \"no unit\"));
  const calls = cell(\"calls\", i.calls.length ? String(i.calls.length) : \"\");
  calls.title = i.calls.join(\"\\n\");
  const links = cell(\"links\");
  links.append(...linked(i.links));
  cell(\"note\", said(i.note));
  const acts = cell(\"acts\");
  for (const [word, act] of [[\"Assign\", assign], [\"Note\", annotate], [\"Clear\", clear], [\"More\", more]]) {
    const b = el(\"button\", \"\", word);
    b.type = \"button\";
    b.setAttribute(\"aria-label\", `${word} ${titled(i)}`);
    b.addEventListener(\"click\", () => act(i.incident));
    acts.append(b);
  }
  // keys at the row do what is in it
  for (const stop of row.querySelectorAll(\"a, button\")) stop.tabIndex = -1;
  return row;
}

// Draws a part of the page anew. Where the control that had the focus is gone, the one of its name gets it.
function redraw(part, draw) {
  const had = document.activeElement, named = (e) => e.getAttribute(\"aria-label\") || e.textContent;
  draw();
  if (had.isConnected) return;
  const controls = [...part.querySelectorAll(\"a, button, select\")];
  (controls.find((e) => named(e) === named(had)) || controls[0]).focus();
}

function drawUnits() {
  const body = $(\"unit-table\").tBodies[0];
  const text = JSON.stringify([board.units, board.incidents.map((i) => [i.incident, i.where])]);
  if (body.dataset.text === text) return;
  if (body.contains(document.activeElement) && document.activeElement.tagName === \"SELECT\") return;
  body.dataset.text = text;
  const where = new Map(board.incidents.map((i) => [i.incident, i.where]));
  const units = [...board.units].sort((a, b) => ORDER.indexOf(a.status) - ORDER.indexOf(b.status) || (a.unit < b.uni\
t ? -1 : 1));
  const rows = units.map((u) => {
    const row = el(\"tr\");
    row.dataset.unit = u.unit;
    row.append(el(\"td\", \"\", u.unit));
    const state = el(\"td\");
    const next = nextStatuses(u);
    const pick = el(\"select\", `chip ${u.status}`);
    pick.setAttribute(\"aria-label\", `Status of ${u.unit}`);
    for (const s of [u.status, ...next]) { const o = el(\"option\", \"\", STATUS[s]); o.value = s; pick.append(o); }
    pick.disabled = !next.length;
    pick.addEventListener(\"change\", () => { const to = pick.value; pick.value = u.status; pick.blur();
      send({ do: \"status\", unit: u.unit, status: to }, `${u.unit} ${STATUS[to]}`); });
    state.append(pick);
    row.append(state);
    const at = el(\"td\", \"at\");
    at.title = u.incident ? clean(where.get(u.incident) || \"\") : \"\";
    if (u.incident) { const s = el(\"span\", \"\", short(u.incident) + \" \"); s.title = u.incident; at.append(s, sa\
id(where.get(u.incident) || \"\")); }
    if (u.stand_by) at.append(el(\"span\", \"chip stand\", `stands by for ${short(u.stand_by)}`));
    row.append(at);
    const acts = el(\"td\", \"acts\");
    if (u.incident) {
      const b = el(\"button\", \"\", \"Release\");
      b.type = \"button\";
      b.setAttribute(\"aria-label\", `Release ${u.unit}`);
      b.addEventListener(\"click\", () => send({ do: \"release\", unit: u.unit }, `release ${u.unit}`));
      acts.append(b);
    } else {
      const b = el(\"button\", \"\", \"Sign off\");
      b.type = \"button\";
      b.setAttribute(\"aria-label\", `Sign off ${u.unit}`);
      b.addEventListener(\"click\", () => signOff(u.unit));
      acts.append(b);
    }
    row.append(acts);
    return row;
  });
  redraw(body.closest(\"section\"), () => body.replaceChildren(...rows));
}

function nextStatuses(u) {
  if (!u.incident) return u.status === \"available\" ? [\"out_of_service\"] : [\"available\"];
  return ORDER.slice(ORDER.indexOf(u.status) + 1, 6);
}

function ages() {
  const t = now();
  for (const td of document.querySelectorAll(\"td.age\")) {
    const text = span(t - Number(td.dataset.since));
    if (td.firstChild.data !== text) td.firstChild.data = text;
  }
  $(\"clock\").textContent = new Date(Date.now() + offset).toLocaleTimeString([], { hour12: false });
  alertLine();
}

// -- commands -----------------------------------------------------------------------------------------------------\
---

// A session of this load alone: a random number, so that no two pages share one.
const parts = crypto.getRandomValues(new Uint32Array(2));
const session = (parts[0] % 2 ** 21) * 2 ** 32 + parts[1] || 1;
let number = 0;
let last = Promise.resolve();
const waiting = [];         // lines without a reply yet, each with its words; the first is under way

// One after the other: the desk keeps a session's latest reply alone. Each is sent until its reply has come, with t\
he
// same number, so that it takes effect once; and all that wait are kept over a reload.
function send(what, words) {
  number += 1;
  const line = JSON.stringify({ session, number, at: new Date(Date.now() + offset).toISOString(), ...what });
  return queue(line, words, words);
}

function queue(line, words, seen) {
  const item = el(\"li\", \"wait\", seen);
  $(\"sent\").prepend(item);
  waiting.push([line, words]);
  keepWaiting();
  last = last.then(() => deliver(line, item, words));
  return last;
}

function keepWaiting() {
  sessionStorage.setItem(\"waiting\", JSON.stringify(waiting));
}

async function deliver(line, item, words) {
  for (let pause = 250; ; pause = Math.min(2 * pause, 2000)) {
    try {
      const r = await fetch(\"/command\", { method: \"POST\", headers: { \"content-type\": \"application/json\" }, b\
ody: line, cache: \"no-store\", signal: AbortSignal.timeout(40000) });
      if (r.status !== 200 && r.status !== 503) { answer(item, words, { words: `the page's server answers ${r.status\
}` }); break; }
      if (r.status === 200) { answer(item, words, await r.json()); break; }
    } catch (e) { /* sent again below */ }
    item.textContent = `${words}: not answered yet, sent again`;
    await sleep(pause);
  }
  waiting.shift();
  keepWaiting();
}

// A refusal in words, with the members that its reply names.
function refusal(reply) {
  const words = REFUSED[reply.refusal] || `refused, ${reply.refusal}`;
  return words.replace(/\\{(\\w+)\\}/g, (_, member) => short(String(reply[member])));
}

function answer(item, words, reply) {
  const ok = reply.ok !== undefined;
  const why = reply.words || refusal(reply);
  item.className = ok ? \"ok\" : \"no\";
  item.textContent = ok ? `${words}${reply.incident ? `, no. ${short(reply.incident)}` : \"\"}` : `${words}: ${why}`\
;
  if (reply.place) item.title = `place ${reply.place}`;
  while ($(\"sent\").children.length > 50) $(\"sent\").lastChild.remove();
}

function resume() {
  const kept = JSON.parse(sessionStorage.getItem(\"waiting\") || \"[]\");
  for (const [line, words] of kept) queue(line, words, `${words} (from before the reload)`);
}

// -- dialogs ------------------------------------------------------------------------------------------------------\
---

let submit = null;
function ask(title, word, fields, then) {
  $(\"dialog-title\").textContent = title;
  $(\"submit\").textContent = word;
  $(\"fields\").replaceChildren(...fields.map(([name, label, kind, extra]) => {
    const l = el(\"label\", \"\", label);
    const f = el(kind === \"select\" ? \"select\" : \"input\");
    f.name = name;
    if (kind === \"select\") {
      for (const [v, t] of extra) { const o = el(\"option\", \"\", t); o.value = v; f.append(o); }
      f.addEventListener(\"keydown\", (e) => { if (e.key === \"Enter\") { e.preventDefault(); $(\"form\").requestSub\
mit(); } });
    } else { f.type = \"text\"; f.autocomplete = \"off\"; Object.assign(f, extra || {}); }
    l.append(f);
    return l;
  }));
  submit = then;
  $(\"dialog\").showModal();
  ($(\"fields\").querySelector(\"input, select\") || $(\"submit\")).focus();
}

// one of the board's open incidents, or the record that is shown: the board has 1,024 incidents at most
const byId = (id) => board.incidents.find((i) => i.incident === id) || (record && record.incident === id ? record : \
undefined);
function open() {
  ask(\"Open an incident\", \"Open\", [[\"kind\", \"Kind\", \"text\", { required: true, maxLength: 32 }], [\"where\"\
, \"Where\", \"text\", { required: true, maxLength: 128 }],
    [\"call\", \"Call (its identifier, may be empty)\", \"text\", {}]], (f) => {
    const what = { do: \"open\", kind: f.kind.trim(), where: f.where.trim() };
    if (f.call.trim()) what.call = f.call.trim();
    send(what, `open ${what.kind}, ${what.where}`);
  });
}
function choose(title, word, name, label, choices, none, then) {
  if (choices.length) ask(title, word, [[name, label, \"select\", choices]], then);
  else say(none);
}
function say(words) {
  $(\"sent\").prepend(el(\"li\", \"no\", words));
}

const titled = (i) => `${isolated(i.kind)}, ${isolated(i.where)}`;
const named = (i) => [i.incident, `${short(i.incident)}: ${titled(i)}`];
const others = (i) => board.incidents.filter((o) => o.incident !== i.incident);
const unitsWhere = (holds) => board.units.filter(holds).map((u) => u.unit).sort().map((u) => [u, u]);

function assign(id) {
  const i = byId(id);
  if (i) choose(`Assign to ${titled(i)}`, \"Assign\", \"unit\", \"Unit\", unitsWhere((u) => u.status === \"available\
\"),
    \"assign: no unit is available\", (f) => send({ do: \"assign\", unit: f.unit, incident: id }, `assign ${f.unit} \
to ${short(id)}`));
}
function standBy(id) {
  const i = byId(id);
  if (i) choose(`Stand by for ${titled(i)}`, \"Stand by\", \"unit\", \"Unit\", unitsWhere((u) => u.incident && u.inc\
ident !== id && !u.stand_by),
    \"stand by: no unit that is at another incident is free to\", (f) => send({ do: \"stand_by\", unit: f.unit, inci\
dent: id }, `${f.unit} stands by for ${short(id)}`));
}
function standDown(id) {
  const i = byId(id);
  if (i) choose(`Stand down from ${titled(i)}`, \"Stand down\", \"unit\", \"Unit\", unitsWhere((u) => u.stand_by ==\
= id),
    \"stand down: no unit stands by for it\", (f) => send({ do: \"stand_down\", unit: f.unit }, `${f.unit} stands do\
wn`));
}
function annotate(id) {
  const i = byId(id);
  if (i) ask(`Note of ${titled(i)}`, \"Note\", [[\"text\", \"Note\", \"text\", { value: i.note, required: true, maxL\
ength: 200 }]],
    (f) => send({ do: \"note\", incident: id, text: f.text }, `note on ${short(id)}`));
}
function addCall(id) {
  const i = byId(id);
  if (i) ask(`Add a call to ${titled(i)}`, \"Add\", [[\"call\", \"Call (its identifier)\", \"text\", { required: tru\
e }]],
    (f) => send({ do: \"add_call\", incident: id, call: f.call.trim() }, `add a call to ${short(id)}`));
}
function link(id) {
  const i = byId(id);
  if (i) choose(`Link ${titled(i)} with`, \"Link\", \"other\", \"Incident\", others(i).filter((o) => !i.links.includ\
es(o.incident)).map(named),
    \"link: no other incident is open\", (f) => send({ do: \"link\", incident: id, other: f.other }, `link ${short(i\
d)} with ${short(f.other)}`));
}
function unlink(id) {
  const i = byId(id);
  if (i) choose(`Take a link of ${titled(i)} away`, \"Unlink\", \"other\", \"Incident\", i.links.map((l) => [l, shor\
t(l)]),
    \"unlink: it has no link\", (f) => send({ do: \"unlink\", incident: id, other: f.other }, `unlink ${short(id)} a\
nd ${short(f.other)}`));
}
function merge(id) {
  const i = byId(id);
  if (i) choose(`Merge ${titled(i)} into`, \"Merge\", \"into\", \"Incident\", others(i).map(named),
    \"merge: no other incident is open\", (f) => send({ do: \"merge\", incident: id, into: f.into }, `merge ${short(\
id)} into ${short(f.into)}`));
}
function split(id) {
  const i = byId(id);
  if (!i) return;
  if (!i.calls.length) { say(\"split: it has no call\"); return; }
  ask(`Split a call of ${titled(i)} off`, \"Split\", [[\"call\", \"Call\", \"select\", i.calls.map((c) => [c, short(\
c)])],
    [\"kind\", \"Kind\", \"text\", { value: i.kind, required: true, maxLength: 32 }], [\"where\", \"Where\", \"text\
\", { value: i.where, required: true, maxLength: 128 }]],
  (f) => send({ do: \"split\", incident: id, call: f.call, kind: f.kind.trim(), where: f.where.trim() }, `split ${sh\
ort(id)}`));
}
function clear(id) {
  const i = byId(id);
  if (i) ask(`Clear ${titled(i)}?`, \"Clear\", [], () => send({ do: \"clear\", incident: id }, `clear ${short(id)}`)\
);
}
function reopen(id) {
  ask(`Open incident ${short(id)} again?`, \"Reopen\", [], () => send({ do: \"reopen\", incident: id }, `reopen ${sh\
ort(id)}`));
}
function signOff(unit) {
  ask(`Sign ${unit} off?`, \"Sign off\", [], () => send({ do: \"sign_off\", unit }, `sign ${unit} off`));
}
function toRecord(id) {
  location.hash = recordLink(id).hash;
}

// All that can be done with an open incident, with the key of what has one.
const ACTS = [[\"Assign a unit\", assign, \"A\"], [\"Have a unit stand by\", standBy], [\"Stand a unit down\", stand\
Down], [\"Note\", annotate, \"E\"],
  [\"Add a call\", addCall], [\"Split a call off\", split], [\"Link with another\", link], [\"Take a link away\", un\
link],
  [\"Merge into another\", merge], [\"Clear\", clear, \"C\"], [\"Show its record\", toRecord, \"R\"]];

function more(id) {
  const i = byId(id);
  if (!i) return;
  $(\"menu-title\").textContent = titled(i);
  $(\"menu-acts\").replaceChildren(...ACTS.map(([word, act, key]) => {
    const b = el(\"button\", \"\", word);
    b.type = \"button\";
    if (key) b.append(el(\"kbd\", \"\", key));
    b.addEventListener(\"click\", () => { $(\"menu\").close(); act(id); });
    const item = el(\"li\");
    item.append(b);
    return item;
  }));
  $(\"menu\").showModal();
  $(\"menu-acts\").querySelector(\"button\").focus();
}

// -- views: open incidents, closed ones, the record of one --------------------------------------------------------\
---

// what the status 503 says: the page's server has two clients for all browsers, and does not tell which it was
const BUSY = \"no node answers now, or the page's server is busy; it is asked again\";

// Asks the desk what it shows. That has no number, so it may be asked as often as one likes.
async function read(what) {
  const r = await fetch(\"/command\", { method: \"POST\", headers: { \"content-type\": \"application/json\" }, body\
: JSON.stringify({ session, ...what }),
    cache: \"no-store\", signal: AbortSignal.timeout(40000) });
  if (r.status !== 200) throw new Error(r.status === 503 ? BUSY : `the page's server answers ${r.status}`);
  return r.json();
}

// All incidents of a state, by as many lists as that takes.
async function listed(state) {
  const all = [];
  for (let from; ;) {
    const told = await read({ do: \"list\", state, ...(from && { from }) });
    if (told.ok !== \"list\") throw new Error(refusal(told));
    all.push(...told.incidents);
    if (!told.next) return all;
    from = told.next;
  }
}

let view = \"open\";
let asked = \"\";             // what the view is of
let drawnAt = -1;           // the place of the board that the view was drawn at
let reading = false;
let record = null;          // the record that is shown
let closed = [];

function decoded(text) {
  try { return decodeURIComponent(text); } catch { return text; }
}

function route() {
  const hash = location.hash.slice(1);
  view = hash.startsWith(\"incident=\") ? \"record\" : hash === \"closed\" ? \"closed\" : \"open\";
  asked = view === \"record\" ? clean(decoded(hash.slice(\"incident=\".length))) : \"\";
  drawnAt = -1;
  for (const [name, section] of [[\"open\", \"incidents\"], [\"closed\", \"closed\"], [\"record\", \"record\"]]) $(s\
ection).hidden = view !== name;
  for (const name of [\"open\", \"closed\"]) {
    if (view === name) $(`to-${name}`).setAttribute(\"aria-current\", \"page\");
    else $(`to-${name}`).removeAttribute(\"aria-current\");
  }
  document.title = view === \"record\" ? `Incident ${short(asked)}` : view === \"closed\" ? \"Closed incidents\" : \
\"Dispatch board\";
  refresh();
}

// Draws what is no part of the board that is told anew: at most once a second, where the board has changed.
async function refresh() {
  if (reading || view === \"open\" || drawnAt === board.place && drawnAt > 0) return;
  reading = true;
  const [of, id, place] = [view, asked, board.place];
  try {
    if (of === \"closed\") {
      const all = [...await listed(\"cleared\"), ...await listed(\"merged\")];
      if (view === of) { closed = all.sort((a, b) => b.opened - a.opened); drawnAt = place; redraw($(\"closed\"), dr\
awClosed); }
    } else {
      const reply = await read({ do: \"show\", incident: id });
      if (asked === id) { drawnAt = place; redraw($(\"record\"), () => drawRecord(id, reply)); }
    }
  } catch (e) {
    (of === \"closed\" ? $(\"closed-none\") : $(\"record-title\")).textContent = `Not shown: ${e.message}`;
    $(\"closed-none\").hidden = false;
  }
  reading = false;
  if (view !== of || asked !== id) refresh();
}

function drawClosed() {
  const words = $(\"closed-filter\").value.toLowerCase().split(/\\s+/).filter(Boolean), state = $(\"closed-state\").\
value;
  const texts = (i) => [i.kind, i.where, i.note, short(i.incident), ...i.calls].join(\" \").toLowerCase();
  const found = closed.filter((i) => (!state || i.state === state) && words.every((w) => texts(i).includes(w)));
  $(\"closed-title\").textContent = `Cleared and merged incidents (${found.length}${found.length < closed.length ? \
` of ${closed.length}` : \"\"})${found.length > 300 ? \": filter for the others\" : \"\"}`;
  $(\"closed-none\").hidden = found.length > 0;
  $(\"closed-none\").textContent = closed.length ? \"None passes the filter.\" : \"None is cleared or merged.\";
  $(\"closed-table\").tBodies[0].replaceChildren(...found.slice(0, 300).map(closedRow));
}

function closedRow(i) {
  const row = el(\"tr\");
  row.dataset.id = i.incident;
  const cell = (cls, ...parts) => { const td = el(\"td\", cls); td.append(...parts); row.append(td); return td; };
  cell(\"no\", recordLink(i.incident));
  cell(\"\", new Date(1000 * i.opened).toLocaleString());
  cell(\"kind\", said(i.kind));
  cell(\"where\", said(i.where));
  cell(\"\", i.state === \"merged\" ? \"merged into \" : i.state, ...(i.into ? [recordLink(i.into)] : []));
  cell(\"calls\", i.calls.length ? String(i.calls.length) : \"\");
  cell(\"links\", ...linked(i.links));
  cell(\"note\", said(i.note));
  const acts = cell(\"acts\");
  acts.append(button(\"Record\", `Record of ${titled(i)}`, () => toRecord(i.incident)));
  if (i.state === \"cleared\") acts.append(button(\"Reopen\", `Reopen ${titled(i)}`, () => reopen(i.incident)));
  return row;
}

function button(word, label, act) {
  const b = el(\"button\", \"\", word);
  b.type = \"button\";
  b.setAttribute(\"aria-label\", label);
  b.addEventListener(\"click\", act);
  return b;
}

function drawRecord(id, i) {
  const values = $(\"record-values\"), acts = $(\"record-acts\");
  values.replaceChildren();
  acts.replaceChildren();
  record = i.ok === \"incident\" ? i : null;
  if (!record) {
    $(\"record-title\").textContent = `Incident ${short(id)}: ${refusal(i)}`;
    return;
  }
  $(\"record-title\").textContent = `Incident ${short(id)}`;
  const row = (name, ...parts) => { const dd = el(\"dd\"); dd.append(...parts); values.append(el(\"dt\", \"\", name)\
, dd); };
  const list = (parts, none) => {
    if (!parts.length) return none;
    const ul = el(\"ul\");
    ul.append(...parts.map((part) => { const item = el(\"li\"); item.append(part); return item; }));
    return ul;
  };
  const status = new Map(board.units.map((u) => [u.unit, STATUS[u.status]]));
  row(\"Identifier\", said(i.incident));
  row(\"State\", i.state === \"merged\" ? \"merged into \" : i.state, ...(i.into ? [recordLink(i.into)] : []));
  row(\"Kind\", said(i.kind));
  row(\"Where\", said(i.where));
  row(\"Opened\", new Date(1000 * i.opened).toLocaleString());
  row(\"Note\", i.note ? said(i.note) : \"none\");
  row(\"Units\", list(i.units.map((u) => status.has(u) ? `${u}, ${status.get(u)}` : u), \"none\"));
  row(\"Stand by\", list(i.stand_by || [], \"none\"));
  row(\"Calls\", list(i.calls.map(said), \"none\"));
  row(\"Links\", list(i.links.map(recordLink), \"none\"));
  row(\"As of place\", String(i.place));
  if (i.state === \"open\") for (const [word, act] of ACTS) { if (act !== toRecord) acts.append(button(word, `${word\
}: ${titled(i)}`, () => act(id))); }
  if (i.state === \"cleared\") acts.append(button(\"Reopen\", `Reopen ${titled(i)}`, () => reopen(id)));
}

// -- keys and clicks ----------------------------------------------------------------------------------------------\
---

function move(row, to) {
  if (!to) return;
  row.tabIndex = -1;
  to.tabIndex = 0;
  to.focus();
}

// In the menu arrows go from one act to the next, and a key that stands beside an act does it.
function menuKey(e) {
  const acts = [...$(\"menu-acts\").querySelectorAll(\"button\")], at = acts.indexOf(document.activeElement);
  const step = { ArrowDown: 1, ArrowUp: -1 }[e.key];
  const keyed = e.ctrlKey || e.metaKey || e.altKey ? -1 : ACTS.findIndex(([, , key]) => key && key.toLowerCase() ==\
= e.key.toLowerCase());
  if (!step && keyed < 0) return;
  e.preventDefault();
  if (step) acts[(at + step + acts.length) % acts.length].focus();
  else acts[keyed].click();
}

document.addEventListener(\"keydown\", (e) => {
  if ($(\"menu\").open) { menuKey(e); return; }
  if (e.ctrlKey || e.metaKey || e.altKey || $(\"dialog\").open) return;
  const at = document.activeElement;
  if (/^(INPUT|SELECT|TEXTAREA)$/.test(at.tagName)) { if (e.key === \"Escape\") at.blur(); return; }
  const row = at.closest(\"#incident-table tbody tr\");
  const key = e.key.length === 1 ? e.key.toLowerCase() : e.key;
  const does = { \"/\": () => $(view === \"closed\" ? \"closed-filter\" : \"filter\").focus(), n: open, u: () => ($(\
\"unit-table\").querySelector(\"select:enabled\") || $(\"sign-on\")).focus() };
  if (row) Object.assign(does, { ArrowDown: () => move(row, row.nextSibling), ArrowUp: () => move(row, row.previousS\
ibling),
    a: () => assign(row.dataset.id), e: () => annotate(row.dataset.id), c: () => clear(row.dataset.id),
    m: () => more(row.dataset.id), r: () => toRecord(row.dataset.id) });
  if (does[key]) { e.preventDefault(); does[key](); }
});
$(\"new\").addEventListener(\"click\", open);
$(\"sign-on\").addEventListener(\"click\", () => ask(\"Sign a unit on\", \"Sign on\", [[\"unit\", \"Name\", \"text\"\
, { required: true, maxLength: 24, pattern: \"[A-Za-z0-9_\\\\-]+\" }]],
  (f) => send({ do: \"sign_on\", unit: f.unit }, `sign ${f.unit} on`)));
$(\"filter\").addEventListener(\"input\", () => draw(null));
$(\"bare\").addEventListener(\"change\", () => draw(null));
$(\"cancel\").addEventListener(\"click\", () => $(\"dialog\").close());
$(\"menu-cancel\").addEventListener(\"click\", () => $(\"menu\").close());
$(\"closed-filter\").addEventListener(\"input\", drawClosed);
$(\"closed-state\").addEventListener(\"change\", drawClosed);
window.addEventListener(\"hashchange\", route);
$(\"form\").addEventListener(\"submit\", (e) => {
  e.preventDefault();
  const f = Object.fromEntries(new FormData($(\"form\")));
  $(\"dialog\").close();
  submit(f);
});
for (const b of document.querySelectorAll(\"th button\")) b.addEventListener(\"click\", () => {
  sort = { by: b.dataset.sort, down: sort.by === b.dataset.sort ? !sort.down : false };
  for (const o of document.querySelectorAll(\"th[aria-sort]\")) o.setAttribute(\"aria-sort\", o.contains(b) ? (sort.\
down ? \"descending\" : \"ascending\") : \"none\");
  draw(null);
});
function theme(dark) {
  document.documentElement.classList.toggle(\"dark\", dark);
  $(\"theme\").textContent = dark ? \"Light\" : \"Dark\";
}
$(\"theme\").addEventListener(\"click\", () => { const d = !document.documentElement.classList.contains(\"dark\"); l\
ocalStorage.setItem(\"dark\", d ? \"1\" : \"0\"); theme(d); });
theme((localStorage.getItem(\"dark\") ?? (matchMedia(\"(prefers-color-scheme: dark)\").matches ? \"1\" : \"0\")) ==\
= \"1\");
$(\"session\").textContent = `session ${session}`;
setInterval(() => { ages(); unmark(); drawUnits(); refresh(); }, 1000);
resume();
route();
follow();
";
