//! The file `page/index.html`, as `scripts/docs/page-files --write` makes it.

/// The file `page/index.html`.
pub const INDEX_HTML: &str = "\
<!doctype html>
<html lang=\"en\">
<head>
<meta charset=\"utf-8\">
<meta name=\"viewport\" content=\"width=device-width, initial-scale=1\">
<meta name=\"color-scheme\" content=\"light dark\">
<title>Dispatch board</title>
<link rel=\"icon\" href=\"/icon.svg\" type=\"image/svg+xml\">
<link rel=\"stylesheet\" href=\"/page.css\">
<script src=\"/page.js\" defer></script>
</head>
<body>
<a class=\"skip\" href=\"#incidents\">To the open incidents</a>
<header>
  <h1>Dispatch board <span id=\"domain\"></span></h1>
  <p id=\"state\" class=\"state wait\" role=\"status\">Connecting</p>
  <dl>
    <div><dt>Open</dt><dd id=\"count-open\">-</dd></div>
    <div class=\"tell\"><dt>Without unit</dt><dd id=\"count-bare\">-</dd></div>
    <div><dt>Units free</dt><dd id=\"count-free\">-</dd></div>
    <div><dt>Place</dt><dd id=\"place\">-</dd></div>
    <div><dt>Nodes</dt><dd id=\"nodes\">-</dd></div>
  </dl>
  <nav aria-label=\"Views\">
    <a href=\"#open\" id=\"to-open\">Open</a>
    <a href=\"#closed\" id=\"to-closed\">Closed</a>
  </nav>
  <p id=\"clock\"></p>
  <button id=\"theme\" type=\"button\" aria-label=\"Dark or light\">Dark</button>
</header>
<p id=\"alert\" role=\"alert\" hidden></p>
<main>
  <section id=\"incidents\" aria-labelledby=\"incidents-title\" tabindex=\"-1\">
    <div class=\"bar\">
      <h2 id=\"incidents-title\">Open incidents</h2>
      <label class=\"filter\">Filter <kbd>/</kbd>
        <input id=\"filter\" type=\"search\" autocomplete=\"off\" spellcheck=\"false\" placeholder=\"kind, place, un\
it, note\">
      </label>
      <label><input id=\"bare\" type=\"checkbox\"> without unit</label>
      <button id=\"new\" type=\"button\" class=\"main\">Open incident <kbd>N</kbd></button>
    </div>
    <div class=\"scroll\">
      <table id=\"incident-table\" aria-describedby=\"keys\">
        <thead><tr>
          <th scope=\"col\" aria-sort=\"none\"><button type=\"button\" data-sort=\"number\">No.</button></th>
          <th scope=\"col\" aria-sort=\"ascending\"><button type=\"button\" data-sort=\"opened\">Open for</button></\
th>
          <th scope=\"col\" aria-sort=\"none\"><button type=\"button\" data-sort=\"kind\">Kind</button></th>
          <th scope=\"col\" aria-sort=\"none\"><button type=\"button\" data-sort=\"where\">Where</button></th>
          <th scope=\"col\" aria-sort=\"none\"><button type=\"button\" data-sort=\"units\">Units</button></th>
          <th scope=\"col\">Calls</th>
          <th scope=\"col\">Links</th>
          <th scope=\"col\">Note</th>
          <th scope=\"col\"><span class=\"hidden\">Actions</span></th>
        </tr></thead>
        <tbody></tbody>
      </table>
      <p id=\"none\" class=\"none\" hidden>No open incident.</p>
    </div>
    <p id=\"past\" class=\"keys\" hidden></p>
    <p id=\"keys\" class=\"keys\"><kbd>&uarr;</kbd><kbd>&darr;</kbd> row &nbsp; <kbd>A</kbd> assign &nbsp; <kbd>E</k\
bd> note &nbsp; <kbd>C</kbd> clear &nbsp; <kbd>M</kbd> all that can be done &nbsp; <kbd>R</kbd> record &nbsp; <kbd>U\
</kbd> to the units</p>
  </section>
  <section id=\"closed\" aria-labelledby=\"closed-title\" tabindex=\"-1\" hidden>
    <div class=\"bar\">
      <h2 id=\"closed-title\">Cleared and merged incidents</h2>
      <label>State
        <select id=\"closed-state\">
          <option value=\"\">cleared or merged</option>
          <option value=\"cleared\">cleared</option>
          <option value=\"merged\">merged</option>
        </select>
      </label>
      <label class=\"filter\">Filter <kbd>/</kbd>
        <input id=\"closed-filter\" type=\"search\" autocomplete=\"off\" spellcheck=\"false\" placeholder=\"kind, pl\
ace, call, note\">
      </label>
    </div>
    <div class=\"scroll\">
      <table id=\"closed-table\">
        <thead><tr>
          <th scope=\"col\">No.</th><th scope=\"col\">Opened</th><th scope=\"col\">Kind</th><th scope=\"col\">Where<\
/th>
          <th scope=\"col\">State</th><th scope=\"col\">Calls</th><th scope=\"col\">Links</th><th scope=\"col\">Note\
</th>
          <th scope=\"col\"><span class=\"hidden\">Actions</span></th>
        </tr></thead>
        <tbody></tbody>
      </table>
      <p id=\"closed-none\" class=\"none\">Asked for.</p>
    </div>
  </section>
  <section id=\"record\" aria-labelledby=\"record-title\" tabindex=\"-1\" hidden>
    <div class=\"bar\">
      <h2 id=\"record-title\">Incident</h2>
      <a href=\"#open\">To the board</a>
    </div>
    <div class=\"scroll\">
      <dl id=\"record-values\"></dl>
      <p id=\"record-acts\" class=\"buttons\"></p>
    </div>
  </section>
  <aside>
    <section aria-labelledby=\"units-title\">
      <div class=\"bar\">
        <h2 id=\"units-title\">Units</h2>
        <button id=\"sign-on\" type=\"button\">Sign on</button>
      </div>
      <div class=\"scroll\">
        <table id=\"unit-table\">
          <thead><tr>
            <th scope=\"col\">Unit</th><th scope=\"col\">Status</th><th scope=\"col\">At</th>
            <th scope=\"col\"><span class=\"hidden\">Actions</span></th>
          </tr></thead>
          <tbody></tbody>
        </table>
      </div>
    </section>
    <section aria-labelledby=\"sent-title\" class=\"sent\">
      <div class=\"bar\"><h2 id=\"sent-title\">Sent from here</h2><span id=\"session\" class=\"faint\"></span></div>
      <ol id=\"sent\" aria-live=\"polite\" aria-relevant=\"additions text\"></ol>
    </section>
  </aside>
</main>
<dialog id=\"dialog\" aria-labelledby=\"dialog-title\">
  <form id=\"form\" method=\"dialog\">
    <h2 id=\"dialog-title\"></h2>
    <div id=\"fields\"></div>
    <p class=\"buttons\"><button type=\"button\" id=\"cancel\">Cancel</button><button type=\"submit\" class=\"main\
\" id=\"submit\">Send</button></p>
  </form>
</dialog>
<dialog id=\"menu\" aria-labelledby=\"menu-title\">
  <h2 id=\"menu-title\"></h2>
  <ul id=\"menu-acts\"></ul>
  <p class=\"buttons\"><button type=\"button\" id=\"menu-cancel\">Cancel</button></p>
</dialog>
<noscript><p class=\"alert\">This page needs JavaScript. <code>desk send</code> does without.</p></noscript>
</body>
</html>
";
